ghost use Rattle.std.specs.Prelude.{◌≡◌, ◌+◌, ◌≤◌, List, None, length, true, false};
ghost use Rattle.mbj_types.specs.declared.job.Job.{Job};
ghost use Rattle.mbj_types.specs.Auths.{class_of};
ghost use Rattle.mbj_types.specs.Result.{result_of};
ghost use Rattle.mbj_types.specs.Verdict.{has_hash_range, is_null_cipher, verdict};
ghost use Rattle.mbj_c.specs.declared.job.RawJob.{RawJob};
ghost use Rattle.mbj_c.specs.declared.words.Words.{Words};
ghost use Rattle.mbj_c.specs.Calls.{CallOfC, GivesInOrder};
ghost use Rattle.mbj_c.specs.Filling.{job_with};
ghost use Rattle.mbj_c.specs.Opened.{CcmOpensByTags, GcmOpensByTags};
ghost use Rattle.mbj_c.specs.Ranges.{bytes_in, given_range, with_bytes};
ghost use Rattle.mbj_c.specs.SeatCalls.{SeatsCollectAll, SeatsCollectInOrder};

/// A law: a result's packet is the packet of its job with the bytes that are given back in their range.
pub fn packets_change_in_their_range_alone()
    ensures { (j : Job) → (result_of j).packet ≡ with_bytes (given_range j) (bytes_in (given_range j) (result_of j).packet) j.packet }
{}

/// A law: the ranges of a job that is accepted, as C gives them, are within its packet. So no range that 32 bits can't hold is
/// taken for a shorter one.
pub fn accepted_ranges_are_within_their_packets()
    ensures cipher { (r : RawJob) (w : Words) → verdict (job_with r w) ≡ None → is_null_cipher w.cipher ≡ false
        → r.cipher_off + r.cipher_len ≤ length r.packet.now }
    ensures hash { (r : RawJob) (w : Words) → verdict (job_with r w) ≡ None → has_hash_range (class_of w.auth) ≡ true
        → r.hash_off + r.hash_len ≤ length r.packet.now }
{}

/// A law: over every list of C's calls on a new manager, what is given back is a prefix of the results of the jobs that were
/// submitted, in their order and each once, and each with the range of its own job.
pub fn results_come_back_with_their_ranges()
    ensures { (calls : List CallOfC) → GivesInOrder calls }
{}

/// A law: over every list of calls of a submitter's seat, in any order and whatever the other seats do, what it collected is a prefix of
/// the results of the jobs that it posted, in the order of its posts, each once and with the range of its own packet; and it is all of
/// them once none is out.
pub fn seats_collect_their_own_results_in_order()
    ensures order { SeatsCollectInOrder }
    ensures all { SeatsCollectAll }
{}

/// A law: a text whose lengths are accepted is opened exactly where it came with the tag that the standard gives it, and becomes the
/// plaintext then; with any other tag it becomes zeros, and the call returns `WrongTag`.
pub fn texts_are_opened_by_their_tags()
    ensures gcm { GcmOpensByTags }
    ensures ccm { CcmOpensByTags }
{}
