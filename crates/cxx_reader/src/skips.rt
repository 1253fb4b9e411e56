//! What is skipped: letters, offsets and identifiers, which print nothing.
#![tactic(auto, unfolding(cxx_grammar::specs::Parses::past_word_if, cxx_grammar::specs::Leaves::parse_call_offset, cxx_grammar::specs::Leaves::parse_temporary_id))]

ghost use Rattle.std.specs.Prelude.{◌≡◌, ◌<◌, ◌≤◌, [], ◌∷◌, length, OnOk};
ghost use Rattle.cxx_grammar.specs.Leaves as leaves;
ghost use Rattle.cxx_grammar.specs.Rows as rows;
ghost use Rattle.cxx_grammar.specs.Parses.{past_word};
ghost use Rattle.cxx_reader.specs.Outcome.{state, GivesUnit};

use crate::reader::Reader;
use abi_scalars::numerals::Radix;
use abi_scalars::texts::{digits, number_text, optional_number_text};
use cxx_tree::Stop;

impl<'a> Reader<'a> {
    /// Skips a letter that must be next.
    pub fn expect(&mut self, letter: u8) -> Result<(), Stop>
        ensures reads { GivesUnit result self.new (past_word (letter ∷ []) (state self.old)) }
        ensures arena { self.new.arena ≡ self.old.arena }
        ensures takes { OnOk result (length self.new.rest.now < length self.old.rest.now) }
    {
        if !self.skip_letter(letter) {
            return Err(Stop::Unreadable);
        }
        Ok(())
    }

    /// Skips `<number> _`.
    pub fn skip_offset(&mut self) -> Result<(), Stop>
        ensures reads { GivesUnit result self.new (leaves.parse_offset (state self.old)) }
        ensures arena { self.new.arena ≡ self.old.arena }
        ensures within { OnOk result (length self.new.rest.now ≤ length self.old.rest.now) }
    {
        let Some((_, rest)) = number_text(self.rest) else {
            return Err(Stop::Unreadable);
        };
        self.rest = rest;
        self.expect(b'_')
    }

    /// Skips `[<number>]`.
    pub fn skip_optional_number(&mut self) -> Result<(), Stop>
        ensures reads { GivesUnit result self.new (rows.skip_number (state self.old)) }
        ensures arena { self.new.arena ≡ self.old.arena }
        ensures within { OnOk result (length self.new.rest.now ≤ length self.old.rest.now) }
    {
        let Some((_, rest)) = optional_number_text(self.rest) else {
            return Err(Stop::Unreadable);
        };
        self.rest = rest;
        Ok(())
    }

    /// Skips `<call-offset> ::= h <number> _ | v <number> _ <number> _`.
    pub fn skip_call_offset(&mut self) -> Result<(), Stop>
        ensures reads { GivesUnit result self.new (leaves.parse_call_offset (state self.old)) }
        ensures arena { self.new.arena ≡ self.old.arena }
        ensures within { OnOk result (length self.new.rest.now ≤ length self.old.rest.now) }
    {
        if self.skip_letter(b'v') {
            tri!(self.skip_offset());
            return self.skip_offset();
        }
        tri!(self.expect(b'h'));
        self.skip_offset()
    }

    /// Skips `[[<seq-id>] _]`.
    pub fn skip_seq_id(&mut self) -> Result<(), Stop>
        ensures reads { GivesUnit result self.new (leaves.parse_temporary_id (state self.old)) }
        ensures arena { self.new.arena ≡ self.old.arena }
        ensures within { OnOk result (length self.new.rest.now ≤ length self.old.rest.now) }
    {
        let (id, rest) = digits(Radix::Base36, self.rest);
        self.rest = rest;
        if !id.is_empty() {
            return self.expect(b'_');
        }
        self.skip_letter(b'_');
        Ok(())
    }
}
