//! The lines that are printed, laid out without memory.
ghost use Rattle.std.specs.Prelude.{◌≡◌, ◌+◌, ◌^◌, ◌<◌, ◌≤◌, ◌++◌, length, decimal};
ghost use Rattle.arrayvec.specs.ArrayVec.{array_vec_len};
ghost use Rattle.shell.specs.Text.{formatted_text, geometry_text, hexadecimal, line_of, refusal_text, sound_text};

use crate::refusal::Refusal;
use arrayvec::ArrayVec;
use byteorder::{BigEndian, ByteOrder};
use ntfs_boot::Geometry;
use ntfs_def::lengths::{INDEX_RECORD, RECORD};
use vol_disk::SECTOR;

/// The lines of one answer.
pub type Text = ArrayVec<u8, 256>;

fn add(text: &mut Text, bytes: &[u8])
    requires { array_vec_len text.old + length bytes.now ≤ 256 }
    ensures items { text.new.items ≡ text.old.items ++ bytes.now }
    ensures len { array_vec_len text.new ≡ array_vec_len text.old + length bytes.now }
{
    text.try_extend_from_slice(bytes).unwrap();
}

fn add_line(text: &mut Text, name: &[u8], value: &[u8])
    requires { array_vec_len text.old + length name.now + length value.now + 2 ≤ 256 }
    ensures items { text.new.items ≡ text.old.items ++ line_of name.now value.now }
    ensures len { array_vec_len text.new ≡ array_vec_len text.old + length name.now + length value.now + 2 }
{
    add(text, name);
    add(text, b" ");
    add(text, value);
    add(text, b"\n");
}

fn add_number(text: &mut Text, name: &[u8], value: u64)
    requires { array_vec_len text.old + length name.now + 22 ≤ 256 }
    ensures items { text.new.items ≡ text.old.items ++ line_of name.now (decimal value) }
    ensures len { array_vec_len text.new ≤ array_vec_len text.old + length name.now + 22 }
{
    add_line(text, name, itoa::Buffer::new().format(value).as_bytes());
}

// The sixteen digits of a number, the highest first.
fn hexadecimal(number: u64) -> [u8; 16]
    ensures { result ≡ hexadecimal number }
{
    let mut bytes = [0; 8];
    BigEndian::write_u64(&mut bytes, number);
    let mut digits = [0; 16];
    hex::encode_to_slice(bytes, &mut digits).unwrap();
    digits
}

/// The nine lines of a geometry.
#[tactic(auto, unfolding(crate::specs::Text::geometry_text))]
pub fn geometry_text(geometry: &Geometry) -> Text
    ensures { result.items ≡ geometry_text geometry.now }
{
    let mut text = Text::new();
    add_number(&mut text, b"sector", SECTOR as u64);
    add_number(&mut text, b"cluster", u64::from(geometry.cluster));
    add_number(&mut text, b"sectors", geometry.sectors);
    add_number(&mut text, b"clusters", geometry.clusters);
    add_number(&mut text, b"mft", geometry.mft);
    add_number(&mut text, b"mirror", geometry.mirror);
    add_number(&mut text, b"record", RECORD as u64);
    add_number(&mut text, b"index", INDEX_RECORD as u64);
    add_line(&mut text, b"serial", &hexadecimal(geometry.serial));
    text
}

/// The line that refuses a volume, as in `refused S1 6`.
#[tactic(auto, unfolding(crate::specs::Text::refusal_text))]
pub fn refusal_text(refusal: Refusal) -> Text
    ensures { result.items ≡ refusal_text refusal }
{
    let mut text = Text::new();
    add(&mut text, b"refused S");
    add_number(
        &mut text,
        itoa::Buffer::new().format(refusal.clause).as_bytes(),
        refusal.number,
    );
    text
}

/// The line on a volume that is sound and was closed.
pub fn sound_text() -> Text
    ensures { result.items ≡ sound_text }
{
    let mut text = Text::new();
    add(&mut text, b"sound\n");
    text
}

/// The line that tells how many clusters a new volume has.
#[tactic(auto, unfolding(crate::specs::Text::formatted_text))]
pub fn formatted_text(clusters: u64) -> Text
    ensures { result.items ≡ formatted_text clusters }
{
    let mut text = Text::new();
    add_number(&mut text, b"formatted", clusters);
    text
}
