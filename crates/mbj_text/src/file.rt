ghost use Rattle.std.specs.Prelude.{◌≡◌, ◌≤◌, ℕ, List, Err, IfOk, IsTrue, length, map, vec_len};
ghost use Rattle.std.specs.List.{All};
ghost use Rattle.mbj_types.specs.Aes.{is_key_size};
ghost use Rattle.mbj_types.specs.declared.limits.TheConstants.{MAX_SESSIONS};
ghost use Rattle.mbj_types.specs.declared.job.Job.{Job};
ghost use Rattle.mbj_text.specs.declared.limits.TheConstants.{INPUT_LIMIT, JOB_LIMIT};
ghost use Rattle.mbj_text.specs.Answer.{IsOkOnly, IsErrOnly};
ghost use Rattle.mbj_text.specs.File.{Reads, Bad, Over, EachFileIsOne, TableAndNamesAgree};
ghost use Rattle.mbj_text.specs.Inside.Reading.{Answers};

use crate::entries::read_entries;
use crate::fault::TextFault;
use crate::kept_lines::{EntriesEnd, KeptLines};
use crate::limits::INPUT_LIMIT;
use mbj_types::Job;
use std::alloc::Global;

/// Reads a job file of at most `INPUT_LIMIT` bytes: the keys of its sessions and its jobs, each in the
/// order of their lines.
///
/// The file is cut into lines at each LF. A last part that isn't empty is a line too, and one CR at a
/// line's end is dropped. A line that is then empty, or begins with `#`, is skipped. Each other line is
/// a session line or a job line, whose fields are parted by single spaces.
///
/// A line whose first field is `session` is a session line. Its other field is the key, bytes of an AES
/// key (16, 24 or 32). Sessions are numbered from 0. Each other line is a job line of 14 fields:
///
/// | No | Field | Form |
/// |---|---|---|
/// | 1 | cipher | `null`, `cbc`, `ctr`, `gcm`, `ccm` |
/// | 2 | direction | `enc`, `dec` |
/// | 3 | order | `ch` (cipher, then hash), `hc` (hash, then cipher) |
/// | 4 | key | bytes, or `@N` for the key of session N, whose line is before this one |
/// | 5 | initialization vector | bytes |
/// | 6, 7 | offset and length of the cipher range | number |
/// | 8 | authentication | `null`, `gcm`, `ccm`, `gmac`, or the word of an HMAC, a hash or a CMAC |
/// | 9, 10 | key of the authentication, additional data | bytes |
/// | 11, 12 | offset and length of the hash range | number |
/// | 13 | length of the tag | number, at most 255 |
/// | 14 | packet | bytes |
///
/// Bytes are `-` for none, or two hexadecimal digits of either case for each. A number has 1 to 5
/// digits, the first of them not `0` unless it is the only one. `specs/Words.antt` has all words.
///
/// It returns `Line` at the first line that isn't so, or is a session line behind `MAX_SESSIONS` others
/// (field 1); `Limit` at the job line behind `JOB_LIMIT` good ones, whatever it says; and `Memory` if
/// there isn't memory enough.
///
/// ```
/// let (_, jobs) = read_file(alloc, LINE.as_bytes())?;
/// let [job] = jobs.as_slice() else {
///     return Ok(false);
/// };
/// Ok(shown(alloc, job)?.as_str() == SHOWN && job.session == None)
/// ```
pub fn read_file(alloc: Global, bytes: &[u8]) -> Result<(Vec<Vec<u8>>, Vec<Job>), TextFault>
    requires { length bytes.now ≤ INPUT_LIMIT }

    // Each result but `Memory` is right.
    ensures reads { IfOk result (λ r. Reads bytes.now (map (λ k. k.items) r.0.items) r.1.items) }
    ensures bad { (line field : ℕ) → result ≡ Err (TextFault.Line line field)
        → Bad bytes.now line field }
    ensures over { (line : ℕ) → result ≡ Err (TextFault.Limit line) → Over bytes.now line }

    // There are no more sessions and jobs than there may be, and each key is one of AES.
    ensures sessions { IfOk result (λ r. (vec_len r.0 ≤ MAX_SESSIONS)
        × All (λ k. IsTrue (is_key_size (length k.items))) r.0.items) }
    ensures count { IfOk result (λ r. length r.1.items ≤ JOB_LIMIT) }

    // What is right is returned, unless there isn't memory enough.
    ensures only_reads { (keys : List (List ℕ)) (jobs : List Job) → Reads bytes.now keys jobs
        → IsOkOnly result (λ r. (map (λ k. k.items) r.0.items ≡ keys) × (r.1.items ≡ jobs)) }
    ensures only_bad { (line field : ℕ) → Bad bytes.now line field
        → IsErrOnly result (TextFault.Line line field) }
    ensures only_over { (line : ℕ) → Over bytes.now line
        → IsErrOnly result (TextFault.Limit line) }
{
    entries_of(alloc, bytes)
}

/// The keys and the jobs of a file, each line of which is a session line or a job line.
fn entries_of(alloc: Global, bytes: &[u8]) -> Result<(Vec<Vec<u8>>, Vec<Job>), TextFault>
    requires { length bytes.now ≤ INPUT_LIMIT }
    ensures { Answers (λ r. Reads bytes.now (map (λ k. k.items) r.0.items) r.1.items) (Bad bytes.now) (Over bytes.now) result }
{
    Ok(read_entries(alloc, &mut KeptLines::of(bytes), EntriesEnd::File)?.into_parts())
}

/// Each file spells sessions and jobs, or has a first bad line, or has too many job lines: exactly one
/// of these, and in one way.
pub fn each_file_is_one()
    ensures { EachFileIsOne }
{}

/// A line spells a job by the table of its fields exactly where it does so field by field.
pub fn table_and_names_agree()
    ensures { TableAndNamesAgree }
{}
