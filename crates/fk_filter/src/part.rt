// What a pattern begins with.
ghost use Rattle.std.specs.Prelude.{◌≡◌, ◌∷◌, Some};
ghost use Rattle.fk_model.specs.Glob.{backslash, part_of};
ghost use Rattle.fk_filter.specs.Parts.{meant};
ghost use Rattle.fk_filter.specs.Stretches.{BeginsWith};

/// What a part of a pattern stands for.
#[derive(Clone, Copy)]
pub(crate) enum Part {
    /// Any bytes, none among them.
    Run,
    /// Any one byte.
    One,
    /// This byte.
    Itself(u8),
}

/// A part of a pattern, and what stands behind it.
#[derive(Clone, Copy)]
pub(crate) struct Cut<'a> {
    pub part: Part,
    pub behind: &'a [u8],
}

/// The first part of a pattern, or `None` where it is empty.
pub(crate) fn first_part(pattern: &[u8]) -> Option<Cut>
    ensures { BeginsWith pattern.now result }
{
    match pattern {
        [] => None,
        [byte, behind @ ..] => Some(part_at(*byte, behind)),
    }
}

/// The first part of a pattern of this byte and what stands behind it.
fn part_at<'a>(byte: u8, behind: &'a [u8]) -> Cut<'a>
    ensures { BeginsWith (byte ∷ behind.now) (Some result) }
{
    if byte == b'\\' {
        escaped(behind)
    } else {
        Cut {
            part: part_of(byte),
            behind,
        }
    }
}

/// The first part of a pattern of a `\` and what stands behind it.
fn escaped<'a>(behind: &'a [u8]) -> Cut<'a>
    ensures { BeginsWith (backslash ∷ behind.now) (Some result) }
{
    match behind {
        [] => Cut {
            part: Part::Itself(b'\\'),
            behind,
        },
        [byte, rest @ ..] => Cut {
            part: Part::Itself(*byte),
            behind: rest,
        },
    }
}

// What a byte stands for before which there is no `\`.
fn part_of(byte: u8) -> Part
    ensures { meant result ≡ part_of byte }
{
    match byte {
        b'*' => Part::Run,
        b'?' => Part::One,
        _ => Part::Itself(byte),
    }
}
