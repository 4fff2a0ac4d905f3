ghost use Rattle.std.specs.Prelude.{◌≡◌, ◌++◌, ◌↔◌, [], length, nat_eq, refl, IfOk, IsTrue, OnErr, OnOk, Some};
ghost use Rattle.std.specs.Ordering.{nat_cmp};
ghost use Rattle.std.specs.Cmp.Lexicographic.{pointwise, slice_cmp, nat_list_eq_equiv, nat_list_cmp_total, texts_po, texts_ties};
ghost use Rattle.std.specs.Cmp.{partial_equiv_from_equiv};

use crate::form::Form;
use std::alloc::{AllocError, Global};
use std::cmp::Ordering;
use std::marker::Model;
use std::mem::size_of;

/// A list of bytes, of any encoding. A fixed one stands in the program, and a short one, of at most 30
/// bytes, in the text itself: neither takes memory.
pub struct Text {
    form: Form,
    alloc: Global,
}

const _: () = prove!(size_of::<Text>() == 32);

impl Model for Text {
    ghost use Rattle.std.specs.Prelude.{ℕ, List};
    ghost use Rattle.fk_json.specs.Text.{bytes_of};

    ghost Value = { List ℕ };

    ghost view = { λ t. bytes_of t.form };
}

// By hand, so that what lets go of a text calls this, and no proof above has a case for each form.
impl Drop for Text {
    fn drop(self) {
        let Text { form, alloc: _ } = self;
        drop(form);
    }
}

impl Text {
    /// A text that stands in the program. It takes no memory.
    pub fn fixed(alloc: Global, bytes: &'static [u8]) -> Text
        ensures { result ≡ bytes.now }
    {
        Text {
            form: Form::Fixed(bytes),
            alloc,
        }
    }

    /// An empty text with room for so many bytes.
    pub fn with_room(alloc: Global, room: usize) -> Result<Text, AllocError>
        ensures { IfOk result (λ text. text ≡ []) }
    {
        Ok(Text {
            form: Form::with_room(alloc, room)?,
            alloc,
        })
    }

    /// A copy of the bytes.
    pub fn copy(alloc: Global, bytes: &[u8]) -> Result<Text, AllocError>
        ensures { IfOk result (λ text. text ≡ bytes.now) }
    {
        Ok(Text {
            form: Form::copy(alloc, bytes)?,
            alloc,
        })
    }

    /// An equal text. That of a fixed text is fixed.
    pub fn copied(&self) -> Result<Text, AllocError>
        ensures { IfOk result (λ text. text ≡ self.now) }
    {
        match self.form {
            Form::Fixed(bytes) => Ok(Text::fixed(self.alloc, bytes)),
            _ => Text::copy(self.alloc, self.bytes()),
        }
    }

    /// Adds bytes at the end, or leaves the text as it is.
    pub fn push_bytes(&mut self, bytes: &[u8]) -> Result<(), AllocError>
        ensures ok { OnOk result (self.new ≡ self.old ++ bytes.now) }
        ensures err { OnErr result (self.new ≡ self.old) }
    {
        self.form.push_bytes(self.alloc, bytes)
    }

    // Where copies of the text take their memory.
    pub(crate) fn allocator(&self) -> Global {
        self.alloc
    }

    pub fn bytes(&self) -> &[u8]
        ensures { result.now ≡ self.now }
    {
        self.form.bytes()
    }

    /// The number of bytes.
    pub fn len(&self) -> usize
        ensures { result ≡ length self.now }
    {
        self.bytes().len()
    }

    pub fn is_empty(&self) -> bool
        ensures { IsTrue result ↔ (self.now ≡ []) }
    {
        self.bytes().is_empty()
    }
}

impl PartialEq for Text {
    ghost eq = { pointwise nat_eq };

    ghost laws = { partial_equiv_from_equiv nat_list_eq_equiv };

    fn eq(&self, other: &Self) -> bool {
        self.bytes() == other.bytes()
    }
}

impl Eq for Text {
    ghost laws = { nat_list_eq_equiv };
}

// By their bytes, where a beginning comes first.
impl PartialOrd for Text {
    ghost partial_cmp = { λ x y. Some (slice_cmp nat_cmp x y) };

    ghost laws = { texts_po };

    fn partial_cmp(&self, other: &Self) -> Option<Ordering> {
        Some(self.cmp(other))
    }
}

impl Ord for Text {
    ghost cmp = { slice_cmp nat_cmp };

    ghost total = { nat_list_cmp_total };

    ghost matches_partial_cmp = { λ x y. refl };

    ghost matches_eq = { texts_ties };

    fn cmp(&self, other: &Self) -> Ordering {
        self.bytes().cmp(other.bytes())
    }
}
