// Texts in one buffer.
ghost use Rattle.std.specs.Prelude.{◌≡◌, ◌<◌, ◌≤◌, ◌++◌, ◌∷◌, [], All, IfOk, Some, length, slice_get, OnOk, OnErr};
ghost use Rattle.std.specs.List.{filter_map};
ghost use Rattle.mt_values.specs.Strings.{start_of};

use mt_base::NoMemory;
use std::alloc::Global;
use std::marker::Model;

/// Where the text at a place begins, by the places where the texts end.
fn start_at(ends: &[usize], place: usize) -> usize
    requires { place ≤ length ends.now }
    ensures { result ≡ start_of 0 ends.now place }
{
    if place == 0 {
        return 0;
    }
    ends[place - 1]
}

/// A list of texts, kept as one buffer with the place where each text ends. Contracts see it as the list.
#[derive(Debug, Drop)]
pub struct Strings {
    ends: Vec<usize>,
    bytes: Vec<u8>,
}

impl Model for Strings {
    ghost use Rattle.std.specs.Prelude.{List, ℕ, length};
    ghost use Rattle.mt_values.specs.Strings.{texts_from, EndsRise};

    ghost Value = { List (List ℕ) };

    ghost view = { λ s. texts_from 0 s.ends.items s.bytes.items };

    ghost invariant = { λ s. EndsRise 0 s.ends.items (length s.bytes.items) };
}

impl Strings {
    /// The list without texts. Takes no memory.
    pub fn new(alloc: Global) -> Self
        ensures { result ≡ [] }
    {
        Strings {
            ends: Vec::new(alloc),
            bytes: Vec::new(alloc),
        }
    }

    /// The number of texts.
    pub fn len(&self) -> usize
        ensures { result ≡ length self.now }
    {
        self.ends.len()
    }

    /// The text at a place, counted from 0.
    pub fn at(&self, place: usize) -> &[u8]
        requires { place < length self.now }
        ensures { slice_get self.now place ≡ Some result.now }
    {
        let start = start_at(&self.ends, place);
        let end = self.ends[place];
        &self.bytes[start..end]
    }

    /// Adds a text at the end.
    ///
    /// `NoMemory` where an allocation failed; the list stays as it was.
    pub fn push(&mut self, text: &[u8]) -> Result<(), NoMemory>
        ensures ok { OnOk result (self.new ≡ self.old ++ text.now ∷ []) }
        ensures err { OnErr result (self.new ≡ self.old) }
    {
        self.ends.reserve(1)?;
        self.bytes.extend_from_slice(text)?;
        self.ends.push_reserved(self.bytes.len());
        Ok(())
    }

    /// The texts at these places, in this order, in one new buffer.
    ///
    /// `NoMemory` where an allocation failed.
    pub fn pick(&self, alloc: Global, order: &[u32]) -> Result<Strings, NoMemory>
        requires { All (λ place. place < length self.now) order.now }
        ensures { IfOk result (λ s. s ≡ filter_map (slice_get self.now) order.now) }
    {
        let mut texts = Strings::new(alloc);
        for place in order {
            texts.push(self.at(*place as usize))?;
        }
        Ok(texts)
    }
}
