// One field of a transfer file. Within it the tag is judged first, then its place in the sequence, then its length, then whether its
// contents are all there.
ghost use Rattle.std.specs.Prelude.{◌≡◌, ◌+◌, ◌≤◌, length, drop};
ghost use Rattle.answer.specs.Answer.{answer_of};
ghost use Rattle.receive.specs.Field.{length_in};
ghost use Rattle.receive.specs.Read.{span_at, field_at};

use answer::Refusal;
use cells::four_bytes;
use transfer::{DEVICE_BYTES, DEVICE_TAG, END_TAG, MOST_PAGES, PAGE_BYTES, PAGE_TAG};

// What a field is: the device number, a page with the offset of its bytes, the end, or one that is passed over.
#[derive(Clone, Copy)]
pub enum FieldKind {
    Device(u32),
    Page(usize),
    End,
    Skipped,
}

// A field that was read: where the next one starts, and what this one is.
#[derive(Clone, Copy)]
pub struct Field {
    pub next: usize,
    pub kind: FieldKind,
}

// The length that the head of the field at byte `at` tells.
pub fn length_at(file: &[u8], at: usize) -> u16
    requires { at + 3 ≤ length file.now }
    ensures { result ≡ length_in (drop at file.now) }
{
    u16::from_be_bytes([file[at + 1], file[at + 2]])
}

// Where the field after the one at byte `at` starts, whose length must be from `least` to `most`.
fn span_of(file: &[u8], at: usize, least: u16, most: u16) -> Result<usize, Refusal>
    requires { at ≤ length file.now }
    ensures { answer_of result ≡ span_at least most file.now at }
{
    if file.len() - at < 3 {
        return Err(Refusal::FileCut);
    }
    let n = length_at(file, at);
    if n < least || most < n {
        return Err(Refusal::FileField);
    }
    let next = at + 3 + n as usize;
    if file.len() < next {
        return Err(Refusal::FileCut);
    }
    Ok(next)
}

// The field at byte `at`, after `seen` fields that were not passed over.
pub fn read_field(file: &[u8], at: usize, seen: usize) -> Result<Field, Refusal>
    requires { at ≤ length file.now }
    ensures { answer_of result ≡ field_at file.now at seen }
{
    if file.len() <= at {
        return Err(Refusal::FileCut);
    }
    let (next, kind) = match file[at] {
        DEVICE_TAG if seen == 0 => {
            let next = span_of(file, at, DEVICE_BYTES, DEVICE_BYTES)?;
            (next, FieldKind::Device(four_bytes(file, at + 3) as u32))
        }
        PAGE_TAG if seen != 0 && seen <= MOST_PAGES => {
            let next = span_of(file, at, PAGE_BYTES, PAGE_BYTES)?;
            (next, FieldKind::Page(at + 3))
        }
        END_TAG if seen != 0 => (span_of(file, at, 0, 0)?, FieldKind::End),
        0x40..=0x6F => (span_of(file, at, 0, u16::MAX)?, FieldKind::Skipped),
        _ => return Err(Refusal::FileField),
    };
    Ok(Field { next, kind })
}
