//! Texts of several pieces.
#![tactic(auto, using(crate::proofs::Grown::grows))]

ghost use Rattle.std.specs.Prelude.{◌≡◌, ℕ, ◌++◌, IfOk, OnOk};
ghost use Rattle.cxx_tree.specs.Grows.{Grows};
ghost use Rattle.cxx_tree.specs.Stored.{forest, text_at, IsText};
ghost use Rattle.cxx_tree.specs.Texts.{number_printed};

use crate::arena::Arena;
use crate::node::NodeText;
use std::alloc::AllocError;

impl Arena {
    // Appends what is printed of a number to the texts.
    fn add_number(&mut self, number: &[u8]) -> Result<(), AllocError>
        ensures texts { OnOk result (self.new.held.texts ≡ self.old.held.texts ++ number_printed number.now) }
        ensures nodes { self.new.nodes ≡ self.old.nodes }
        ensures forest { forest self.new ≡ forest self.old }
        ensures grows { Grows self.old self.new }
    {
        match number {
            [b'n', digits @ ..] => {
                self.add_text(b"-")?;
                self.add_text(digits)
            }
            _ => self.add_text(number),
        }
    }

    /// Makes a text of three.
    pub fn joined_text(
        &mut self,
        front: &[u8],
        middle: &[u8],
        after: &[u8],
    ) -> Result<NodeText, AllocError>
        ensures text { IfOk result (λ t. text_at self.new.held t ≡ front.now ++ (middle.now ++ after.now)) }
        ensures within { IfOk result (IsText self.new.held) }
        ensures nodes { self.new.nodes ≡ self.old.nodes }
        ensures forest { forest self.new ≡ forest self.old }
        ensures grows { Grows self.old self.new }
    {
        let from = self.texts_len();
        self.add_text(front)?;
        self.add_text(middle)?;
        self.add_text(after)?;
        Ok(self.text_from(from))
    }

    /// Makes a text of what is printed of a number, between two texts.
    pub fn joined(
        &mut self,
        front: &[u8],
        number: &[u8],
        after: &[u8],
    ) -> Result<NodeText, AllocError>
        ensures text { IfOk result
            (λ t. text_at self.new.held t ≡ front.now ++ (number_printed number.now ++ after.now)) }
        ensures within { IfOk result (IsText self.new.held) }
        ensures nodes { self.new.nodes ≡ self.old.nodes }
        ensures forest { forest self.new ≡ forest self.old }
        ensures grows { Grows self.old self.new }
    {
        let from = self.texts_len();
        self.add_text(front)?;
        self.add_number(number)?;
        self.add_text(after)?;
        Ok(self.text_from(from))
    }
}
