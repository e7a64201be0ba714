// The log's entries. A log and the entries used of it are two values, as the public functions and the C interface have them.
ghost use Rattle.std.specs.Prelude.{◌≡◌, [], ◌∷◌, ◌+◌, ◌*◌, length};
ghost use Rattle.gif.specs.Log.{HasRoom, entry, path_number, entry_by, entries_by, logged, log_refused, LogFits, entered, entry_of};
ghost use Rattle.gif.specs.Step.{left, commit};
ghost use Rattle.gif.specs.Inner.{listed};

use super::{ENTRY_SIZE, Entry, GifPath, GifResult, LOG_MOST, Path, Write, Writes};
use fields::Refusal;

impl Writes {
    fn count(self) -> u64
        ensures { result ≡ length (listed self) }
    {
        match self {
            Writes::Nothing => 0,
            Writes::One(_) => 1,
            Writes::Two(_, _) => 2,
        }
    }
}

impl GifPath {
    // The number that a path has in the log.
    fn number(self) -> u64
        ensures { result ≡ path_number self }
    {
        self as u64
    }
}

fn put(log: &mut [u64], used: u64, e: Entry)
    requires { HasRoom log.old used 1 }
    ensures { log.new ≡ logged log.old used (e ∷ []) }
{
    let at = (ENTRY_SIZE * used) as usize;
    log[at] = e.path;
    log[at + 1] = e.register;
    log[at + 2] = e.value;
}

// A write as an entry.
fn entry_by(which: GifPath, w: Write) -> Entry
    ensures { result ≡ entry_by which w }
{
    Entry {
        path: which.number(),
        register: w.register,
        value: w.value,
    }
}

fn store(log: &mut [u64], used: u64, which: GifPath, writes: Writes)
    requires { HasRoom log.old used (length (listed writes)) }
    ensures { log.new ≡ logged log.old used (entries_by which (listed writes)) }
{
    match writes {
        Writes::Nothing => {}
        Writes::One(w) => put(log, used, entry_by(which, w)),
        Writes::Two(w, x) => {
            put(log, used, entry_by(which, w));
            put(log, used + 1, entry_by(which, x));
        }
    }
}

// Stores writes after the first `used` entries; hands back the entries used then.
pub(crate) fn append(log: &mut [u64], used: u64, which: GifPath, writes: Writes) -> u64
    requires { HasRoom log.old used (length (listed writes)) }
    ensures { (result ≡ used + length (listed writes)) × (log.new ≡ logged log.old used (entries_by which (listed writes))) }
{
    store(log, used, which, writes);
    used + writes.count()
}

// The step's writes and its path, all or none; `closed` says whether it closes a packet.
pub(crate) fn finish(
    which: GifPath,
    path: Path,
    after: Path,
    closed: bool,
    writes: Writes,
    log: &mut [u64],
    used: u64,
) -> GifResult
    requires { LogFits log.old used }
    ensures { left result log.new ≡ commit which path after closed (listed writes) used log.old }
{
    let n = writes.count();
    if (log.len() as u64) < ENTRY_SIZE * (used + n) {
        return GifResult {
            answer: Err(Refusal::LogFull),
            path,
            used,
        };
    }
    let entries = append(log, used, which, writes);
    GifResult {
        answer: Ok(closed),
        path: after,
        used: entries,
    }
}

// Whether refusal 4 names this length.
pub fn log_refused(log: &[u64], used: u64) -> bool
    ensures { result ≡ log_refused log.now used }
{
    let n = log.len() as u64;
    n % ENTRY_SIZE != 0 || LOG_MOST < n || n / ENTRY_SIZE < used
}

// Stores one entry after the first `used` ones, where there is room for it.
pub fn write_entry(log: &mut [u64], used: u64, path: u64, register: u64, value: u64) -> bool
    ensures { entered result log.new ≡ entry_of log.old used (entry path register value) }
{
    let fits = used < log.len() as u64 / ENTRY_SIZE;
    if fits {
        let e = Entry {
            path,
            register,
            value,
        };
        put(log, used, e);
    }
    fits
}
