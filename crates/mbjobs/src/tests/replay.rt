use super::FIRST_JOB;
use super::texts::{Repeat, check_parts};

/// RFC 2202, test case 2 of HMAC-SHA-1.
const SECOND_JOB: &str =
    "null enc ch - - 0 0 hmac-sha1 4a656665 - 0 28 20 7768617420646f2079612077616e7420666f72206e6f7468696e673f\n";

const WORDS: &str = "mbjobs replay --submitters 1 --workers 2";

/// Two jobs, and a script.
const FILE: [Repeat; 7] = [
    (FIRST_JOB, 1),
    (SECOND_JOB, 1),
    ("%\n", 1),
    ("post 0\n", 3),
    ("claim 0 0\nclaim 1 0\nflush 1\ncollect 0\nflush 0\n", 1),
    ("collect 0\n", 3),
    ("flush 0\n", 1),
];

/// What each command of the script comes to.
const LINES: &str = "\
post 0 0
post 0 1
post 0 end
claim 0 0
claim 1 1
finish 1 1
collect 0 none
finish 0 0
collect 0 0 ok 4869205468657265 b617318655057264e28bc0b6fb378c8ef146be00
collect 0 1 ok 7768617420646f2079612077616e7420666f72206e6f7468696e673f effcdf6ae5eb2fa2d27416d5f184df9c259a7c79
collect 0 none
finish 0 none
";

// Each of two workers has one job, which waits for lanes until it is flushed.
#[test]
fn a_replay_tells_what_each_command_comes_to(rt: HostRuntime) {
    check_parts(&rt, rt.alloc(), WORDS, &FILE, 0, LINES);
}

const POSTS: [Repeat; 3] = [(FIRST_JOB, 513), ("%\n", 1), ("post 0\n", 513)];

#[test]
fn a_post_with_all_cells_out_is_full(rt: HostRuntime) {
    let lines = "post 0 [0..511]\npost 0 full\n";
    check_parts(&rt, rt.alloc(), WORDS, &POSTS, 0, lines);
}

#[test]
fn a_worker_that_there_is_not_is_a_bad_line(rt: HostRuntime) {
    let file = [(FIRST_JOB, 1), ("%\nclaim 2 0\n", 1)];
    let text = "mbjobs: line 3: field 2\n";
    check_parts(&rt, rt.alloc(), WORDS, &file, 5, text);
}
