// The parts of a spelling, put where there is room for them.
ghost use Rattle.std.specs.Prelude.{◌≡◌, ◌∷◌, ◌++◌, ◌≤◌, [], ◌<◌, ◌^◌, length, All, IfSome};
ghost use Rattle.std.specs.List.{flat_map};
ghost use Rattle.fk_job.specs.Spellings.{IsText};
ghost use Rattle.fk_model.specs.Spellings.{AreTexts};
ghost use Rattle.fk_moves.specs.Spelling.{count_bytes, flag_bytes, option_bytes, signed_bytes, text_bytes, texts_bytes, word_bytes};
ghost use Rattle.fk_moves.specs.Writing.{Put};

use fk_json::{Buffer, Text, Texts};

/// Puts bytes behind those that are there.
pub(crate) fn put_bytes(out: &mut Buffer, bytes: &[u8])
    requires { length bytes.now ≤ out.old.spare }
    ensures { Put bytes.now out.old out.new }
{
    let _ = out.push_bytes(bytes);
}

#[tactic(auto, unfolding(crate::specs::Spelling::word_bytes))]
pub(crate) fn put_word(out: &mut Buffer, number: u64)
    requires { length (word_bytes number) ≤ out.old.spare }
    ensures { Put (word_bytes number) out.old out.new }
{
    put_bytes(out, &number.to_be_bytes());
}

#[tactic(auto, unfolding(crate::specs::Spelling::signed_bytes))]
pub(crate) fn put_signed(out: &mut Buffer, number: i64)
    requires { length (signed_bytes number) ≤ out.old.spare }
    ensures { Put (signed_bytes number) out.old out.new }
{
    put_bytes(out, &number.to_be_bytes());
}

/// Puts how often a job is tried again and how long a worker may have it, that it is due at once, and
/// whether its producer said when it was made.
#[tactic(auto, unfolding(crate::specs::Spelling::signed_bytes, crate::specs::Spelling::word_bytes))]
pub(crate) fn put_terms(out: &mut Buffer, retry: i64, reserve_for: u64, has_created: bool)
    requires { length
        (signed_bytes retry ++ word_bytes reserve_for ++ (0 ∷ []) ++ flag_bytes has_created)
        ≤ out.old.spare }
    ensures { Put (signed_bytes retry ++ word_bytes reserve_for ++ (0 ∷ []) ++ flag_bytes has_created)
        out.old out.new }
{
    let flag = flag_byte(has_created);
    put_bytes(
        out,
        &terms(&retry.to_be_bytes(), &reserve_for.to_be_bytes(), flag),
    );
}

fn flag_byte(flag: bool) -> u8
    ensures { flag_bytes flag ≡ result ∷ [] }
{
    if flag { 1 } else { 0 }
}

fn terms(retry: &[u8; 8], reserve_for: &[u8; 8], flag: u8) -> [u8; 18]
    ensures { result ≡ retry.now ++ reserve_for.now ++ (0 ∷ []) ++ (flag ∷ []) }
{
    let mut terms = [0; 18];
    terms[17] = flag;
    terms[8..16].copy_from_slice(reserve_for);
    terms[..8].copy_from_slice(retry);
    terms
}

/// Puts when a row was put into its queue, that it never failed, and its rank in the queue.
#[tactic(auto, unfolding(crate::specs::Spelling::word_bytes))]
pub(crate) fn put_queued(out: &mut Buffer, enqueued: u64, rank: u64)
    requires { length ((1 ∷ word_bytes enqueued) ++ (0 ∷ []) ++ (1 ∷ word_bytes rank))
        ≤ out.old.spare }
    ensures { Put ((1 ∷ word_bytes enqueued) ++ (0 ∷ []) ++ (1 ∷ word_bytes rank)) out.old out.new }
{
    put_bytes(out, &queued(&enqueued.to_be_bytes(), &rank.to_be_bytes()));
}

fn queued(enqueued: &[u8; 8], rank: &[u8; 8]) -> [u8; 19]
    ensures { result ≡ (1 ∷ enqueued.now) ++ (0 ∷ []) ++ (1 ∷ rank.now) }
{
    let mut queued = [1; 19];
    queued[11..].copy_from_slice(rank);
    queued[9] = 0;
    queued[1..9].copy_from_slice(enqueued);
    queued
}

/// Puts a byte that tells a kind, and a number behind it.
#[tactic(auto, unfolding(crate::specs::Spelling::word_bytes))]
pub(crate) fn put_tagged(out: &mut Buffer, tag: u8, number: u64)
    requires { length (tag ∷ word_bytes number) ≤ out.old.spare }
    ensures { Put (tag ∷ word_bytes number) out.old out.new }
{
    put_bytes(out, &tagged(tag, &number.to_be_bytes()));
}

fn tagged(tag: u8, number: &[u8; 8]) -> [u8; 9]
    ensures { result ≡ tag ∷ number.now }
{
    let mut tagged = [tag; 9];
    tagged[1..].copy_from_slice(number);
    tagged
}

pub(crate) fn put_flag(out: &mut Buffer, flag: bool)
    requires { 1 ≤ out.old.spare }
    ensures { Put (flag_bytes flag) out.old out.new }
{
    if flag {
        put_bytes(out, &[1]);
    } else {
        put_bytes(out, &[0]);
    }
}

pub(crate) fn put_option(out: &mut Buffer, number: Option<u64>)
    requires { length (option_bytes word_bytes number) ≤ out.old.spare }
    ensures { Put (option_bytes word_bytes number) out.old out.new }
{
    match number {
        None => put_bytes(out, &[0]),
        Some(number) => put_tagged(out, 1, number),
    }
}

#[tactic(auto, unfolding(crate::specs::Spelling::count_bytes))]
fn put_count(out: &mut Buffer, count: usize)
    requires small { count < 2 ^ 32 }
    requires room { length (count_bytes count) ≤ out.old.spare }
    ensures { Put (count_bytes count) out.old out.new }
{
    put_bytes(out, &(count as u32).to_be_bytes());
}

pub(crate) fn put_text(out: &mut Buffer, text: &Text)
    requires spelled { IsText text.now }
    requires room { length (text_bytes text.now) ≤ out.old.spare }
    ensures { Put (text_bytes text.now) out.old out.new }
{
    put_count(out, text.len());
    put_bytes(out, text.bytes());
}

pub(crate) fn put_texts(out: &mut Buffer, texts: &Texts)
    requires spelled { AreTexts texts.now }
    requires room { length (texts_bytes texts.now) ≤ out.old.spare }
    ensures { Put (texts_bytes texts.now) out.old out.new }
{
    put_count(out, texts.len());
    put_each(out, texts.as_slice());
}

fn put_each(out: &mut Buffer, texts: &[Text])
    requires spelled { All IsText texts.now }
    requires room { length (flat_map text_bytes texts.now) ≤ out.old.spare }
    ensures { Put (flat_map text_bytes texts.now) out.old out.new }
{
    for text in texts {
        put_text(out, text);
    }
}
