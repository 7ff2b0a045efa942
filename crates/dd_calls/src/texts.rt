//! Texts one after the other.

ghost use Rattle.std.specs.Prelude.{◌≡◌, ◌≤◌, ◌<◌, ◌⊎◌, ◌∷◌, [], IfOk, IsFalse, IsTrue, OnOk, length, map};
ghost use Rattle.dd_calls.specs.Sizes.{over};
ghost use Rattle.dd_calls.specs.Texts.{AreTexts, Puts};

use std::alloc::{AllocError, Global};

/// Holds texts one after the other, and where each of them ends.
#[derive(Drop)]
pub struct Texts {
    pub text: Vec<u8>,
    pub ends: Vec<u64>,
}

impl Texts {
    /// Holds no texts.
    pub fn new(alloc: Global) -> Texts
        ensures texts { AreTexts [] result }
        ensures text { result.text.items ≡ [] }
        ensures ends { result.ends.items ≡ [] }
    {
        Texts {
            text: Vec::new(alloc),
            ends: Vec::new(alloc),
        }
    }

    /// Holds these texts.
    pub(crate) fn of(alloc: Global, texts: &[&[u8]]) -> Result<Texts, AllocError>
        ensures { IfOk result (AreTexts (map (λ text. text.now) texts.now)) }
    {
        let mut joined = Texts::new(alloc);
        for text in texts {
            joined.put(text)?;
        }
        Ok(joined)
    }

    /// Puts a text after the others.
    pub fn put(&mut self, text: &[u8]) -> Result<(), AllocError>
        ensures { OnOk result (Puts (text.now ∷ []) self.old self.new) }
    {
        self.text.extend_from_slice(text)?;
        self.ends.push(self.text.len() as u64)?;
        Ok(())
    }

    /// Gives both parts to the fronts of these, where each fits. Else gives false, and nothing of them is changed.
    pub fn give(&self, text: &mut [u8], ends: &mut [u64]) -> bool
        ensures text { IsTrue result → text.new ≡ over self.now.text.items text.old }
        ensures ends { IsTrue result → ends.new ≡ over self.now.ends.items ends.old }
        ensures fit_text { IsTrue result → length self.now.text.items ≤ length text.old }
        ensures fit_ends { IsTrue result → length self.now.ends.items ≤ length ends.old }
        ensures longer { IsFalse result → (length ends.old < length self.now.ends.items)
            ⊎ (length text.old < length self.now.text.items) }
        ensures same_text { IsFalse result → text.new ≡ text.old }
        ensures same_ends { IsFalse result → ends.new ≡ ends.old }
    {
        if self.text.len() > text.len() || self.ends.len() > ends.len() {
            return false;
        }
        text[..self.text.len()].copy_from_slice(&self.text);
        ends[..self.ends.len()].copy_from_slice(&self.ends);
        true
    }
}
