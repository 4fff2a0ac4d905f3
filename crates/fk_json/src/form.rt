// Where the bytes of a text lie.
ghost use Rattle.std.specs.Prelude.{◌≡◌, ◌++◌, [], IfOk, OnErr, OnOk};
ghost use Rattle.fk_json.specs.Text.{bytes_of};

use crate::short::{MOST_SHORT, Short};
use std::alloc::{AllocError, Global};

/// In the program, in the text itself, or in memory of the text's own.
#[derive(Drop)]
pub(crate) enum Form {
    Fixed(&'static [u8]),
    Short(Short),
    Owned(Vec<u8>),
}

impl Form {
    /// No bytes, and room for so many.
    pub(crate) fn with_room(alloc: Global, room: usize) -> Result<Form, AllocError>
        ensures { IfOk result (λ form. bytes_of form ≡ []) }
    {
        if room <= MOST_SHORT {
            Ok(Form::Short(Short::new()))
        } else {
            Ok(Form::Owned(Vec::with_capacity(alloc, room)?))
        }
    }

    /// A copy of the bytes.
    pub(crate) fn copy(alloc: Global, bytes: &[u8]) -> Result<Form, AllocError>
        ensures { IfOk result (λ form. bytes_of form ≡ bytes.now) }
    {
        if bytes.len() <= MOST_SHORT {
            let mut short = Short::new();
            short.push(bytes);
            return Ok(Form::Short(short));
        }
        let mut owned = Vec::with_capacity(alloc, bytes.len())?;
        owned.extend_from_slice(bytes)?;
        Ok(Form::Owned(owned))
    }

    /// A copy of two parts, one behind the other.
    pub(crate) fn joined(alloc: Global, front: &[u8], back: &[u8]) -> Result<Form, AllocError>
        ensures { IfOk result (λ form. bytes_of form ≡ front.now ++ back.now) }
    {
        let length = front.len().saturating_add(back.len());
        if length <= MOST_SHORT {
            let mut short = Short::new();
            short.push(front);
            short.push(back);
            return Ok(Form::Short(short));
        }
        let mut owned = Vec::with_capacity(alloc, length)?;
        owned.extend_from_slice(front)?;
        owned.extend_from_slice(back)?;
        Ok(Form::Owned(owned))
    }

    /// Adds bytes at the end, or leaves all as it is.
    pub(crate) fn push_bytes(&mut self, alloc: Global, bytes: &[u8]) -> Result<(), AllocError>
        ensures ok { OnOk result (bytes_of self.new ≡ bytes_of self.old ++ bytes.now) }
        ensures err { OnErr result (bytes_of self.new ≡ bytes_of self.old) }
    {
        match self {
            Form::Owned(owned) => owned.extend_from_slice(bytes),
            Form::Short(short) if short.has_room(bytes.len()) => {
                short.push(bytes);
                Ok(())
            }
            _ => {
                *self = Form::joined(alloc, self.bytes(), bytes)?;
                Ok(())
            }
        }
    }

    pub(crate) fn bytes(&self) -> &[u8]
        ensures { result.now ≡ bytes_of self.now }
    {
        match self {
            Form::Fixed(fixed) => fixed,
            Form::Short(short) => short.bytes(),
            Form::Owned(owned) => owned,
        }
    }
}
