//! Jobs by bursts: what `n` single calls do, in one.
ghost use Rattle.std.specs.Prelude.{◌≡◌, ◌+◌, ◌≤◌, ◌++◌, drop, length, map, min, option_to_list, replicate, take, vec_capacity};
ghost use Rattle.mbj_types.specs.Result.{result_of};
ghost use Rattle.mbj_manager.specs.Calls as calls;
ghost use Rattle.mbj_manager.specs.Calls.{after_calls, given_back, FlushesEach};

use crate::manager::Manager;
use mbj_types::Done;
use std::alloc::Global;

/// Puts what was given back, if anything was, last among the results. Returns how many that is.
fn keep(out: &mut Vec<Done>, given: Option<Done>) -> u32
    requires { length out.old.items + length (option_to_list given) ≤ vec_capacity out.old }
    ensures results { out.new.items ≡ out.old.items ++ option_to_list given }
    ensures count { result ≡ length (option_to_list given) }
    ensures room { vec_capacity out.new ≡ vec_capacity out.old }
{
    match given {
        Some(done) => {
            out.push_reserved(done);
            1
        }
        None => 0,
    }
}

impl Manager {
    /// Submits the first `n` open jobs as `submit` does, one after another, and puts what that gives back last in `out`,
    /// which has room for `n` results more. Returns how many results that is. It takes no memory.
    pub fn submit_burst(&mut self, n: u32, out: &mut Vec<Done>) -> u32
        requires are_open { n ≤ length self.old.opened }
        requires room { length out.old.items + n ≤ vec_capacity out.old }
        ensures state { self.new ≡ after_calls (replicate n calls.submit) self.old }
        ensures results { out.new.items ≡ out.old.items ++ given_back (replicate n calls.submit) self.old }
        ensures count { result ≡ length (given_back (replicate n calls.submit) self.old) }
        ensures order { out.new.items ++ self.new.owed ≡ out.old.items ++ (self.old.owed ++ map result_of (take n self.old.opened)) }
        ensures others { self.new.opened ≡ drop n self.old.opened }
        ensures room { vec_capacity out.new ≡ vec_capacity out.old }
    {
        let mut count = 0;
        'submitting: for turn in 0..n {
            let given = self.submit();
            count += keep(out, given);
        }
        count
    }

    /// Flushes as `flush` does until it returns `None`, `n` times at most, and puts what that gives back last in `out`, which
    /// has room for it. Returns how many results that is. It takes no memory.
    pub fn flush_burst(&mut self, n: u32, out: &mut Vec<Done>) -> u32
        requires room { length out.old.items + min n (length self.old.owed) ≤ vec_capacity out.old }
        ensures state { self.new ≡ after_calls (replicate n calls.flush) self.old }
        ensures results { out.new.items ≡ out.old.items ++ given_back (replicate n calls.flush) self.old }
        ensures each { FlushesEach (given_back (replicate n calls.flush) self.old) self.old self.new }
        ensures count { result ≡ length (given_back (replicate n calls.flush) self.old) }
        ensures until { result ≡ min n (length self.old.owed) }
        ensures order { out.new.items ++ self.new.owed ≡ out.old.items ++ self.old.owed }
        ensures open_stays { self.new.opened ≡ self.old.opened }
        ensures room { vec_capacity out.new ≡ vec_capacity out.old }
    {
        let mut count = 0;
        'flushing: while count < n {
            match self.flush() {
                Some(done) => {
                    out.push_reserved(done);
                    count += 1;
                }
                None => return count,
            }
        }
        count
    }
}
