// The transfer file, which carries the pages of one device (document 02, Change 1): written from pages of any content.
//
// The operation takes byte slices of every length and has no `requires`. The first refusal that applies is given, and a refusal writes no
// byte.
#![tactic(auto)]

ghost use Rattle.std.specs.Prelude.{◌≡◌, ◌+◌, ◌*◌, ◌≤◌, length};
ghost use Rattle.std.proofs.lemmas.List.Edits.{sets};
ghost use Rattle.answer.specs.Answer.{answer_of};
ghost use Rattle.transfer.specs.File.{start, head, device_field, page_fields};
ghost use Rattle.transfer.specs.Answer.{write_file_answer, write_file_leaves};

use answer::Refusal;
use cells::{copy_page, put_bytes};

// The fixed start, the tags, and the sizes of what they hold, for the reader too.
pub const START: [u8; 2] = *b"\xF1\xB0";

pub const DEVICE_TAG: u8 = 0x02;

pub const PAGE_TAG: u8 = 0x01;

pub const END_TAG: u8 = 0x7F;

pub const DEVICE_BYTES: u16 = 4;

pub const PAGE_BYTES: u16 = 256;

pub const MOST_PAGES: usize = 64;

// Puts the fixed start.
fn put_start(out: &mut [u8])
    requires { 2 ≤ length out.old }
    ensures { out.new ≡ sets out.old 0 start }
{
    out[0] = START[0];
    out[1] = START[1];
}

// Puts a field's tag and the length of its contents at byte k.
fn put_head(out: &mut [u8], k: usize, tag: u8, n: u16)
    requires { k + 3 ≤ length out.old }
    ensures { out.new ≡ sets out.old k (head tag n) }
{
    let [high, low] = n.to_be_bytes();
    out[k] = tag;
    out[k + 1] = high;
    out[k + 2] = low;
}

// Puts the device number's field, at byte 2.
fn put_device(out: &mut [u8], device: u32)
    requires { 9 ≤ length out.old }
    ensures { out.new ≡ sets out.old 2 (device_field device) }
{
    put_head(out, 2, DEVICE_TAG, DEVICE_BYTES);
    put_bytes(out, 5, 4, device as u64);
}

// Puts the fields of n pages, from byte 9 on.
fn put_pages(out: &mut [u8], pages: &[u8], n: usize)
    requires { (n ≤ 64) × (9 + 259 * n ≤ length out.old) × (256 * n ≤ length pages.now) }
    ensures { out.new ≡ sets out.old 9 (page_fields n pages.now) }
{
    for i in 0..n {
        put_head(out, 9 + 259 * i, PAGE_TAG, PAGE_BYTES);
        copy_page(out, 12 + 259 * i, pages, 256 * i);
    }
}

// Write file: puts the file of the device number and the pages at the start of the output. The pages' length is compared before anything
// is multiplied.
pub fn write_file(device: u32, pages: &[u8], out: &mut [u8]) -> Result<u32, Refusal>
    ensures answer { answer_of result ≡ write_file_answer device pages.now out.old }
    ensures bytes { out.new ≡ write_file_leaves device pages.now out.old }
{
    if pages.len() % 256 != 0 || 256 * MOST_PAGES < pages.len() {
        return Err(Refusal::PagesLength);
    }
    let n = pages.len() / 256;
    let end = 9 + 259 * n;
    if out.len() < end + 3 {
        return Err(Refusal::OutputLength);
    }
    put_start(out);
    put_device(out, device);
    put_pages(out, pages, n);
    put_head(out, end, END_TAG, 0);
    Ok((end + 3) as u32)
}
