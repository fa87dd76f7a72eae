//! CCM on the cipher range of a packet: the text is ciphered at once, and its MAC and its mask meet in the tag.

ghost use Rattle.std.specs.Prelude.{◌≡◌, None, length, take};
ghost use Rattle.mbj_types.specs.Aes.{aes};
ghost use Rattle.mbj_types.specs.Blocks.{xor_lists};
ghost use Rattle.mbj_types.specs.Ccm.{ccm_mask};
ghost use Rattle.mbj_types.specs.Verdict.{verdict_at};
ghost use Rattle.mbj_types.specs.Result.{ciphered};
ghost use Rattle.mbj_types.specs.declared.job.Cipher.TheVariants as cipher;
ghost use Rattle.mbj_keys.specs.Schedules.{IsScheduleOf};
ghost use Rattle.mbj_stage.specs.CourseState.{with_mac, with_mask};

use crate::tag::cut;
use mbj_aes::Schedule;
use mbj_ccm::apply_and_mask;
use mbj_types::{BLOCK_BYTES, Dir, Job, Tag, xor_in_place};

/// MAC and mask xored, and cut to the tag's length (SP 800-38C, 6.1, step 8). One of them is a block.
fn joined(block: &[u8; 16], other: &[u8], tag_len: u8) -> Tag
    ensures { result ≡ take tag_len (xor_lists block.now other.now) }
{
    let mut whole = *block;
    let both = other.len().min(BLOCK_BYTES);
    xor_in_place(&mut whole[..both], other);
    cut(&whole[..both], tag_len)
}

/// What stands in the tag's place once the MAC is made: the MAC if the text is sealed, and if it is opened the tag, since the
/// mask stood there.
pub(crate) fn with_mac(job: &Job, mac: &[u8; 16], tag: &Tag) -> Tag
    ensures { result ≡ with_mac job.now.tag_len mac.now job.now.dir tag.now }
{
    match job.dir {
        Dir::Enc => Tag::from_slice(mac),
        Dir::Dec => joined(mac, tag.bytes(), job.tag_len),
    }
}

/// What stands there once the mask is made: the tag if the text is sealed, since the MAC stood there, and if it is opened
/// the mask.
fn with_mask(job: &Job, mask: &[u8; 16], tag: &Tag) -> Tag
    ensures { result ≡ with_mask job.now.tag_len mask.now job.now.dir tag.now }
{
    match job.dir {
        Dir::Enc => joined(mask, tag.bytes(), job.tag_len),
        Dir::Dec => Tag::from_slice(mask),
    }
}

/// Ciphers the cipher range of an accepted CCM job's packet, in either direction, and makes the mask: the cipher range changes, and
/// nothing else of the packet.
pub(crate) fn run(job: &Job, key: &Schedule, packet: &mut [u8], tag: &mut Tag)
    requires key { IsScheduleOf job.now.key key.now }
    requires ccm { job.now.cipher ≡ cipher.Ccm }
    requires accepted { verdict_at job.now (length packet.old) ≡ None }
    ensures packet { packet.new ≡ ciphered job.now packet.old }
    ensures tag { tag.new ≡ with_mask job.now.tag_len (ccm_mask (aes job.now.key) job.now.iv) job.now.dir tag.old }
{
    let start = job.cipher_off as usize;
    let end = start + job.cipher_len as usize;
    let mask = apply_and_mask(key, job.iv.as_slice(), &mut packet[start..end]);
    *tag = with_mask(job, &mask, tag);
}
