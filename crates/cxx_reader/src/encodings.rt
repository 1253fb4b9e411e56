//! Encodings (Itanium C++ ABI 5.1.2).
#![tactic(auto, using(crate::proofs::Rules::productions), unfolding(cxx_tree::specs::Stored::tree_of, cxx_tree::specs::Stored::plain_tree, cxx_tree::specs::Stored::IsBelow, cxx_tree::specs::Stored::IsPlainBelow, cxx_tree::specs::Stored::stands, crate::specs::Outcome::named_at, crate::specs::Outcome::list_trees, cxx_grammar::specs::Encodings::parse_signature, cxx_grammar::specs::Encodings::parse_enable_if, cxx_grammar::specs::Encodings::encoding_as))]

ghost use Rattle.std.specs.Prelude.{◌≡◌, ℕ, ◌<◌, ◌≤◌, ◌&&◌, not, if◌then◌else◌, length, drop, take, OnOk, IfSome, option_map};
ghost use Rattle.cxx_grammar.specs.declared.rows.Item.TheVariants as item;
ghost use Rattle.cxx_tree.specs.Kept.{KeepsNodes, IsNode};
ghost use Rattle.cxx_tree.specs.Stored.{forest, size, stands, IsListBelow};
ghost use Rattle.cxx_grammar.specs.Encodings as spec;
ghost use Rattle.cxx_grammar.specs.Cases.{case_of_encoding};
ghost use Rattle.cxx_grammar.specs.Parses.{at_level};
ghost use Rattle.cxx_grammar.specs.Symbol.{productions};
ghost use Rattle.cxx_reader.specs.Outcome.{state, trees_behind, Keeps, KeepsFront, Moves, Gives, GivesOption, GivesOptionList, GivesFrom, IsNamed, list_trees, named_at};

use crate::cases::{begins_enable_if, encoding_case, is_encoding_end};
use crate::constraints::read_constraint;
use crate::names::read_name;
use crate::reader::{Info, LearnedName, Reader};
use crate::rows::{read_list, read_params, read_row};
use crate::specials::special_row;
use crate::types::read_type;
use cxx_grammar::cases::EncodingCase;
use cxx_grammar::rows::{End, Item};
use cxx_tree::{Clauses, List, Node, Plain, Stop};

/// Reads what follows the name of an encoding: nothing, or `[<enable-if>] <bare-function-type>`.
#[cycle(reader)]
pub fn read_signature(reader: &mut Reader, depth: usize, name: LearnedName) -> Result<u32, Stop>
    requires named { IsNamed reader.old.arena name }
    ensures reads { Gives result reader.new (spec.parse_signature (productions depth)
        (named_at reader.old.arena name) (state reader.old)) }
    ensures keeps { OnOk result (Keeps reader.old reader.new) }
{
    if is_encoding_end(reader.rest) {
        return reader.make(Node::Plain(Plain::Data(name.node)));
    }
    read_function(reader, depth, name)
}

// Reads `[<enable-if>] [<return type>] <parameters> [Q <constraint-expression>]`.
#[cycle(reader)]
fn read_function(reader: &mut Reader, depth: usize, name: LearnedName) -> Result<u32, Stop>
    requires named { IsNamed reader.old.arena name }
    ensures reads { Gives result reader.new (spec.parse_function (productions depth)
        (named_at reader.old.arena name) (state reader.old)) }
    ensures keeps { OnOk result (Keeps reader.old reader.new) }
{
    let enable_if = tri!(read_enable_if(reader, depth));
    let ret = tri!(read_return_type(reader, depth, has_return(name.info)));
    let from = reader.arena.pending_len();
    tri!(read_params(reader, depth, first_param(name.info), End::Encoding,));
    let constraint = tri!(read_constraint(reader, depth));
    let clauses = Clauses {
        enable_if,
        constraint,
    };
    reader.make_function(ret, name, from, clauses)
}

// Reads `[Ua9enable_ifI <template-arg>* E]`.
#[cycle(reader)]
fn read_enable_if(reader: &mut Reader, depth: usize) -> Result<Option<List>, Stop>
    ensures reads { GivesOptionList result reader.new (spec.parse_enable_if (productions depth) (state reader.old)) }
    ensures keeps { OnOk result (Keeps reader.old reader.new) }
{
    if !begins_enable_if(reader.rest) {
        return Ok(None);
    }
    let conditions = tri!(read_list(reader, depth, 13, Item::Arg));
    Ok(Some(conditions))
}

// What the first parameter of a function is: a type, which may be that of its object.
fn first_param(info: Info) -> Item
    ensures value { result ≡ (if info.explicit_object then item.Object else item.Type) }
{
    if info.explicit_object {
        Item::Object
    } else {
        Item::Type
    }
}

// Whether a function has its return type in front of its parameters.
fn has_return(info: Info) -> bool
    ensures value { result ≡ (info.ends_with_args && not info.no_return) }
{
    info.ends_with_args && !info.no_return
}

// Reads a return type, if there is one.
#[cycle(reader)]
fn read_return_type(reader: &mut Reader, depth: usize, is_there: bool) -> Result<Option<u32>, Stop>
    ensures reads { GivesOption result reader.new (spec.parse_return (productions depth) is_there
        (state reader.old)) }
    ensures keeps { OnOk result (Keeps reader.old reader.new) }
{
    if !is_there {
        return Ok(None);
    }
    let t = tri!(read_type(reader, depth, false));
    Ok(Some(t))
}

impl<'a> Reader<'a> {
    // Makes the function of a name, whose parameters are the nodes of the list that is read from `from` on.
    fn make_function(
        &mut self,
        ret: Option<u32>,
        name: LearnedName,
        from: usize,
        clauses: Clauses,
    ) -> Result<u32, Stop>
        requires ret { IfSome ret (IsNode self.old.arena) }
        requires named { IsNamed self.old.arena name }
        requires within { from ≤ length self.old.arena.pending }
        requires enable_if { IfSome clauses.enable_if (IsListBelow self.old.arena.held (size self.old.arena)) }
        requires constraint { IfSome clauses.constraint (IsNode self.old.arena) }
        ensures reads { Gives result self.new (spec.make_function (option_map (stands self.old.arena) ret)
            (named_at self.old.arena name) (trees_behind from self.old.arena)
            (option_map (list_trees self.old.arena) clauses.enable_if)
            (option_map (stands self.old.arena) clauses.constraint) (state self.old)) }
        ensures grows { OnOk result (KeepsNodes self.old.arena self.new.arena) }
        ensures pending { OnOk result (self.new.arena.pending ≡ take from self.old.arena.pending) }
        ensures rest { OnOk result (self.new.rest.now ≡ self.old.rest.now) }
    {
        let info = name.info;
        let params = tri!(self.arena.list_from(from));
        self.arena
            .make_encoding(ret, name.node, params, info.cv, info.ref_qual, clauses)
    }
}

/// Reads `<encoding>`. At most `depth` counted productions may nest, this one included.
#[cycle(reader)]
pub fn read_encoding(reader: &mut Reader, depth: usize) -> Result<u32, Stop>
    ensures reads { Gives result reader.new ((productions depth).encoding (state reader.old)) }
    ensures moves { OnOk result (Moves reader.old reader.new) }
{
    if depth == 0 {
        return Err(Stop::Unreadable);
    }
    let depth = depth - 1;
    let outer = reader.level;
    reader.level = 0;
    let t = tri!(read_encoding_case(reader, depth));
    reader.level = outer;
    Ok(t)
}

// Reads an `<encoding>` around whose begin there is no binder.
#[cycle(reader)]
#[inline(always)]
fn read_encoding_case(reader: &mut Reader, depth: usize) -> Result<u32, Stop>
    ensures reads { Gives result reader.new (spec.encoding_as (productions depth)
        (case_of_encoding reader.old.rest.now) (state reader.old)) }
    ensures moves { OnOk result (Moves reader.old reader.new) }
{
    match encoding_case(reader.rest) {
        EncodingCase::Special => read_special(reader, depth),
        EncodingCase::Name => read_named(reader, depth),
    }
}

// Reads `<special-name>`, in which no template parameter is left.
#[cycle(reader)]
#[inline(never)]
fn read_special(reader: &mut Reader, depth: usize) -> Result<u32, Stop>
    ensures reads { Gives result reader.new (spec.parse_special_encoding (productions depth) (state reader.old)) }
    ensures moves { OnOk result (Moves reader.old reader.new) }
{
    let Some(row) = special_row(reader.rest) else {
        return Err(Stop::Unreadable);
    };
    let t = tri!(read_row(reader, depth, row));
    reader.closed(t)
}

// Reads a name and what follows it, and binds its template parameters.
#[cycle(reader)]
#[inline(never)]
fn read_named(reader: &mut Reader, depth: usize) -> Result<u32, Stop>
    ensures reads { Gives result reader.new (spec.parse_named_encoding (productions depth) (state reader.old)) }
    ensures moves { OnOk result (Moves reader.old reader.new) }
{
    let name = tri!(read_name(reader, depth));
    let t = tri!(read_inside(reader, depth, name));
    reader.bind(name, t)
}

// Reads what follows the name of an encoding, inside of the binder that the name may be.
#[cycle(reader)]
#[inline(always)]
fn read_inside(reader: &mut Reader, depth: usize, name: LearnedName) -> Result<u32, Stop>
    requires named { IsNamed reader.old.arena name }
    ensures reads { Gives result reader.new (at_level (spec.level_behind (named_at reader.old.arena name))
        (spec.parse_signature (productions depth) (named_at reader.old.arena name)) (state reader.old)) }
    ensures keeps { OnOk result (Keeps reader.old reader.new) }
{
    let outer = reader.level;
    reader.level = reader.has_args(name) as u64;
    let t = tri!(read_signature(reader, depth, name));
    reader.level = outer;
    Ok(t)
}
