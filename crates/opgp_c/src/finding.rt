//! The call that finds armored blocks in a text.

ghost use Rattle.std.specs.Prelude.{◌≡◌, ◌≢◌, ◌⊎◌, ◌≤◌, ◌+◌, length};
ghost use Rattle.opgp_blocks.specs.Blocks.{cleaned_in, found_in};
ghost use Rattle.opgp_handles.specs.Calls.{AreSized, IsFilled, IsShort};
ghost use Rattle.opgp_handles.specs.FoundBlocks.{found_rows};

use opgp_handles::{FoundRow, Sizes, find_blocks};
use std::alloc::Global;

/// Fills the tables with the armored blocks in a text as mail programs meet it: quoted, indented,
/// with a break of HTML at the end of a line, behind a byte order mark, among other text; and with
/// their cleaned octets, one behind the other: the contents of their lines, each with a line feed.
/// Each line that begins a block (RFC 9580, 6.2.1) makes one, up to the next line that ends one, or
/// to before the next line that begins another. A cleartext message's own line makes none (7).
///
/// The status says whether it is done; else the tables are unchanged: a table has too little room,
/// or out of memory. The sizes say how much room is wanted.
#[unsafe(no_mangle)]
pub extern "C" fn opgp_find_blocks(
    alloc: Global,
    text: &[u8],
    rows: &mut [FoundRow],
    bytes: &mut [u8],
    sizes: &mut Sizes,
) -> u32
    ensures done { result ≡ 0 → IsFilled (found_rows 0 (found_in text.now)) rows.old rows.new
        × IsFilled (cleaned_in text.now) bytes.old bytes.new }
    ensures room { result ≡ 2 → IsShort (found_rows 0 (found_in text.now))
        (cleaned_in text.now) rows.old bytes.old }
    // Room for one octet more than the text has is enough.
    ensures few { result ≢ 3 → sizes.new.bytes ≤ length text.now + 1 }
    ensures kept { result ≢ 0 → (rows.new ≡ rows.old) × (bytes.new ≡ bytes.old) }
    ensures sizes { result ≢ 3 → AreSized (found_rows 0 (found_in text.now))
        (cleaned_in text.now) sizes.new }
    ensures status { (result ≡ 0) ⊎ ((result ≡ 2) ⊎ (result ≡ 3)) }
{
    find_blocks(alloc, text, rows, bytes, sizes)
}
