// The archive of the listing: the call of `listing` under its C name, which promises what that one promises. The clause stands again since an exported
// function has its own.
#![tactic(auto)]

ghost use Rattle.inputs.specs.Parted.{texts_of};
ghost use Rattle.listing.specs.Call.{Writes};

use listing::Listing;

// Writes the whole listing of texts to a buffer. Given are the texts one behind the other, the chromosome list, the bases and
// each stream, and where each of them ends.
#[unsafe(no_mangle)]
pub extern "C" fn cedarlash_list(bytes: &[u8], ends: &[usize], out: &mut [u8]) -> Listing
    ensures { Writes (texts_of bytes.now ends.now) out.old result out.new }
{
    listing::cedarlash_list(bytes, ends, out)
}
