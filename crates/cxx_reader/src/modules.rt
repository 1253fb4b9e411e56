//! Modules (Itanium C++ ABI 5.1.2).
#![tactic(auto, using(crate::proofs::Kept::readers), unfolding(cxx_tree::specs::Stored::stands, cxx_tree::specs::Grows::Makes, cxx_tree::specs::Stored::tree_of, cxx_tree::specs::Stored::plain_tree, cxx_tree::specs::Stored::IsBelow, cxx_tree::specs::Stored::IsPlainBelow, cxx_grammar::specs::Parses::past_word_if, cxx_grammar::specs::Modules::parse_module, cxx_grammar::specs::Modules::parse_module_substitution))]

ghost use Rattle.std.specs.Prelude.{◌≡◌, ℕ, ◌<◌, ◌≤◌, length, OnOk, IfSome, option_map};
ghost use Rattle.cxx_tree.specs.Kept.{IsNode};
ghost use Rattle.cxx_tree.specs.Phrases.{module_name};
ghost use Rattle.cxx_tree.specs.Stored.{stands};
ghost use Rattle.cxx_grammar.specs.Modules as spec;
ghost use Rattle.cxx_grammar.specs.Names as names;
ghost use Rattle.cxx_grammar.specs.Parses.{make_saved};
ghost use Rattle.cxx_reader.specs.Outcome.{state, Keeps, Moves, Gives, GivesOption};

use crate::bases::is_module;
use crate::cases::begins;
use crate::reader::Reader;
use cxx_tree::{Node, Plain, Stop};

impl<'a> Reader<'a> {
    /// Reads `<module-name>`, of which nothing may be there, behind a module or none.
    #[inline(always)]
    pub fn read_subnames(&mut self, outer: Option<u32>) -> Result<Option<u32>, Stop>
        requires outer { IfSome outer (IsNode self.old.arena) }
        ensures reads { GivesOption result self.new (spec.parse_subnames (option_map (stands self.old.arena) outer)
            (state self.old)) }
        ensures keeps { OnOk result (Keeps self.old self.new) }
    {
        let mut owner = outer;
        while begins(self.rest, b'W') {
            let inner = tri!(self.read_subname(owner));
            owner = Some(inner);
        }
        Ok(owner)
    }

    // Reads `W [P] <source-name>` behind a module or none, and saves it.
    #[inline(never)]
    fn read_subname(&mut self, outer: Option<u32>) -> Result<u32, Stop>
        requires outer { IfSome outer (IsNode self.old.arena) }
        ensures reads { Gives result self.new (spec.parse_subname (option_map (stands self.old.arena) outer)
            (state self.old)) }
        ensures moves { OnOk result (Moves self.old self.new) }
    {
        tri!(self.expect(b'W'));
        let is_partition = self.skip_letter(b'P');
        let name = tri!(self.read_source_name());
        self.make_module(outer, name, is_partition)
    }

    // Makes the name of a module, and saves it.
    fn make_module(
        &mut self,
        outer: Option<u32>,
        name: u32,
        is_partition: bool,
    ) -> Result<u32, Stop>
        requires outer { IfSome outer (IsNode self.old.arena) }
        requires name { IsNode self.old.arena name }
        ensures reads { Gives result self.new (make_saved (module_name (option_map (stands self.old.arena) outer)
            (stands self.old.arena name) is_partition) (state self.old)) }
        ensures keeps { OnOk result (Keeps self.old self.new) }
        ensures rest { OnOk result (self.new.rest.now ≡ self.old.rest.now) }
    {
        let owner = tri!(self.arena.make_module_name(outer, name, is_partition));
        tri!(self.arena.save(owner));
        Ok(owner)
    }

    /// Reads `<module-name>`.
    pub fn read_module(&mut self) -> Result<u32, Stop>
        ensures reads { Gives result self.new (spec.parse_module (state self.old)) }
        ensures moves { OnOk result (Moves self.old self.new) }
    {
        let first = tri!(self.read_subname(None));
        match tri!(self.read_subnames(Some(first))) {
            Some(owner) => Ok(owner),
            None => Err(Stop::Unreadable),
        }
    }

    /// Reads `<substitution>` that is a module.
    pub fn read_module_substitution(&mut self) -> Result<u32, Stop>
        ensures reads { Gives result self.new (spec.parse_module_substitution (state self.old)) }
        ensures moves { OnOk result (Moves self.old self.new) }
    {
        let owner = tri!(self.read_substitution());
        if !is_module(&self.arena, owner) {
            return Err(Stop::Unreadable);
        }
        Ok(owner)
    }

    /// Puts a name in a module if there is one.
    pub fn put_in_module(&mut self, owner: Option<u32>, name: u32) -> Result<u32, Stop>
        requires owner { IfSome owner (IsNode self.old.arena) }
        requires name { IsNode self.old.arena name }
        ensures reads { Gives result self.new (names.make_in_module (option_map (stands self.old.arena) owner)
            (stands self.old.arena name) (state self.old)) }
        ensures keeps { OnOk result (Keeps self.old self.new) }
        ensures rest { OnOk result (self.new.rest.now ≡ self.old.rest.now) }
    {
        match owner {
            Some(owner) => self.make(Node::Plain(Plain::InModule(name, owner))),
            None => Ok(name),
        }
    }
}
