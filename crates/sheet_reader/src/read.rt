// The reader of a signing sheet. Sizes and states go apart from function to function, as `sheet_read` takes them: a struct of the two would be taken apart in each.
ghost use Rattle.std.specs.Prelude.{◌≡◌, true, ◌≤◌, length, get_or};
ghost use Rattle.tables.specs.Size.{signing_fits};
ghost use Rattle.tables.specs.Judgement.{sign_judgement};
ghost use Rattle.sheets.specs.Sheet.{header as header_lines};
ghost use Rattle.sheets.specs.Outcome.{read_said, read_outcome, signed_or, told_by, sheet_read};
ghost use Rattle.sheets.specs.Lines.{lines_of};
ghost use Rattle.sheets.specs.Walk.{exact_from, filled, entries_from, end_at, scanned, scan_of};

use judgement::judge::judge_signing;
use sheet_lines::entry::entry_at;
use sheet_lines::skip::skip_line;
use sheets::{BadLine, ReadRefusal};
use tables::size::signing_fits;
use tables::{Refusal, Signing, Sizes};

// The header: the edition, then the caller's numbers.
fn header(z: Sizes, states: u32, text: &[u8]) -> Result<usize, BadLine>
    ensures { result ≡ exact_from text.now (header_lines z states) 1 0 }
{
    let at = skip_line(text, 0, b"sheet", 1).ok_or(BadLine(1))?;
    let at = skip_line(text, at, b"terminals", z.terminals).ok_or(BadLine(2))?;
    let at = skip_line(text, at, b"symbols", z.symbols).ok_or(BadLine(3))?;
    let at = skip_line(text, at, b"rules", z.rules).ok_or(BadLine(4))?;
    skip_line(text, at, b"states", states).ok_or(BadLine(5))
}

// An entry for each element of `values`, from number `first` and line `line` on.
#[tactic(auto, using(sheets::specs::Laws::Walk::enter_steps))]
fn entries(
    text: &[u8],
    at: usize,
    key: &[u8],
    first: u32,
    line: usize,
    values: &mut [u32],
) -> Result<usize, BadLine>
    requires { (first ≤ 1024) × (line ≤ 2048) × (length values.old ≤ 1024) }
    ensures { filled result values.new ≡ entries_from text.now key.now first line at values.old }
{
    let mut place = at;
    for (i, v) in values.iter_mut().enumerate() {
        let value = entry_at(text, place, key, first + i as u32).ok_or(BadLine(line + i))?;
        *v = value.number;
        place = value.next;
    }
    Ok(place)
}

// The text ends at `at`, or goes on with line `line`.
#[tactic(auto, using(std::proofs::lemmas::Bool::Decides::nat_tests), unfolding(sheets::specs::Walk::end_at))]
fn end(text: &[u8], line: usize, at: usize) -> Result<usize, BadLine>
    ensures { result ≡ end_at text.now line at }
{
    if at == text.len() {
        Ok(at)
    } else {
        Err(BadLine(line))
    }
}

// The lines of a sheet, read into the rules of the states and the targets of the nonterminals but T.
#[tactic(auto, unfolding(sheets::specs::Walk::scan_of))]
fn scan(
    z: Sizes,
    states: u32,
    text: &[u8],
    rules: &mut [u32],
    targets: &mut [u32],
) -> Result<usize, BadLine>
    requires { (z.terminals ≤ 256) × (states ≤ 1024) × (length rules.old ≤ 1024) × (length targets.old ≤ 1024) }
    ensures { scanned result rules.new targets.new ≡ scan_of z states text.now rules.old targets.old }
{
    let at = header(z, states, text)?;
    let at = entries(text, at, b"state.", 0, 6, rules)?;
    let line = 6 + states as usize;
    let at = entries(text, at, b"goto.", z.terminals + 1, line, targets)?;
    end(text, line + targets.len(), at)
}

// A signing that was read takes the place of the old one, if SIGN refuses nothing.
#[tactic(auto, unfolding(sheets::specs::Outcome::signed_or, tables::specs::Judgement::signing_judgement))]
fn keep(
    z: Sizes,
    states: u32,
    size: usize,
    signing: Signing,
    srule: &mut [u32],
    sgoto: &mut [u32],
) -> Result<usize, ReadRefusal>
    requires { (signing_fits z states signing.rules.now signing.targets.now ≡ true) × (length srule.old ≡ length signing.rules.now) × (length sgoto.old ≡ length signing.targets.now) }
    ensures { read_outcome (read_said result) srule.new sgoto.new ≡ signed_or (sign_judgement z states signing.entry.rules.now signing.entry.targets.now) size signing.entry.rules.now signing.entry.targets.now srule.old sgoto.old }
{
    judge_signing(z, states, signing)?;
    srule.copy_from_slice(signing.rules);
    sgoto.copy_from_slice(signing.targets);
    Ok(size)
}

// Reads a sheet of good sizes, by way of two arrays as long as the signing's: LINE, SIGN, else the length of the text.
#[tactic(auto, using(sheets::specs::Laws::Reading::reading_steps))]
fn read_by(
    z: Sizes,
    states: u32,
    text: &[u8],
    rules: &mut [u32],
    targets: &mut [u32],
    srule: &mut [u32],
    sgoto: &mut [u32],
) -> Result<usize, ReadRefusal>
    requires fits { signing_fits z states srule.old sgoto.old ≡ true }
    requires lengths { (length rules.old ≡ length srule.old) × (length targets.old ≡ length sgoto.old) }
    requires start { get_or targets.old 0 0 ≡ 0 }
    ensures { read_outcome (read_said result) srule.new sgoto.new ≡ told_by z states (length text.now) srule.old sgoto.old (lines_of z states text.now) }
{
    let size = scan(z, states, text, rules, &mut targets[1..])?;
    keep(z, states, size, Signing { rules, targets }, srule, sgoto)
}

// Reads a sheet into the lent signing: SIZE, LINE, SIGN, else the length of the text.
#[tactic(auto, using(sheets::specs::Laws::Reading::room_steps), unfolding(sheets::specs::Outcome::sheet_read))]
pub fn read_sheet(
    z: Sizes,
    states: u32,
    text: &[u8],
    srule: &mut [u32],
    sgoto: &mut [u32],
) -> Result<usize, ReadRefusal>
    ensures { read_outcome (read_said result) srule.new sgoto.new ≡ sheet_read z states text.now srule.old sgoto.old }
{
    let lent = Signing {
        rules: srule,
        targets: sgoto,
    };
    if !signing_fits(z, states, lent) {
        return Err(ReadRefusal::Judged(Refusal::Size));
    }
    // No heap: what is read stands in the frame until nothing of it is refused.
    let mut rules = [0; 1024];
    let mut targets = [0; 512];
    let l = srule.len();
    let n = sgoto.len();
    read_by(
        z,
        states,
        text,
        &mut rules[..l],
        &mut targets[..n],
        srule,
        sgoto,
    )
}
