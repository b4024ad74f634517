// What packsheet prints, exported.
ghost use Rattle.std.specs.Prelude.{◌≡◌, length};
ghost use Rattle.std.proofs.lemmas.List.Edits.{sets};
ghost use Rattle.printed.specs.Printed as packsheet;

// Prints what packsheet prints for a text into the lent buffer, as far as it fits, and gives the length of all of it.
#[unsafe(no_mangle)]
pub extern "C" fn slettrein_packsheet(text: &[u8], out: &mut [u8]) -> usize
    ensures { (result ≡ length (packsheet.printed text.now)) × (out.new ≡ sets out.old 0 (packsheet.printed text.now)) }
{
    printed::print_sheet(text, out)
}
