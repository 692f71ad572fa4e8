// The text of a customer's own pressure profile: a names line `factor` and an entry of the table a line. Document 02, Q-7.
// The text is held whole and may have any length. Its lines are the reader's, and what is asked of its entries is `hurricane`'s check 20. They are
// gone over twice: once to be judged, when none is kept, and once into the lent table.
#![tactic(auto)]

ghost use Rattle.std.specs.Prelude.{◌≡◌, length};
ghost use Rattle.reader.specs.Lines.{leaves};
ghost use Rattle.profile.specs.Entries.{entries_by};
ghost use Rattle.profile.specs.Load.{entries_check, load_of};

use hurricane::profile::{ENTRIES, Judged};
use reader::Cursor;
use records::{Kind, Refusal, need};

// Judges the entries of the lines from here on. A line that is none is refused before any entry is, however late it comes.
fn check_entries(s: &[u8], first: Cursor) -> Result<(), Refusal>
    ensures { result ≡ entries_check (entries_by s.now (length s.now) first.at first.line) }
{
    let mut c = first;
    let mut judged = Ok(Judged::none());
    while c.at < s.len() {
        let mut entry = [0; 1];
        c = c.lines(s, 1, 0, 1, &mut entry)?;
        judged = judged.and_then(|x: Judged| x.with(entry[0]));
    }
    judged?.end()
}

// Loads the table to the front of the lent room, which stays as lent where the text is refused, and behind the table.
pub fn load_profile(s: &[u8], room: &mut [i64]) -> Result<(), Refusal>
    ensures { leaves result room.new ≡ load_of s.now room.old }
{
    let first = Cursor { at: 0, line: 0 }.names(s, b"factor\n")?;
    check_entries(s, first)?;
    need(ENTRIES <= room.len(), Refusal::new(Kind::Lent, 0))?;
    first.lines(s, 1, 0, ENTRIES, room)?;
    Ok(())
}
