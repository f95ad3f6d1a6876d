// The lines that stop the disk of a run after each of its calls in turn, open what is left by a next run whose disk stops too, and
// what that leaves by a last one.
use crate::answer::Answer;
use crate::bench::{Bench, Machine};
use crate::left::choice_of;
use crate::text::first_word;
use std::sync::Wait;
use std::thread::Threads;

/// No run makes this many calls.
const NEVER: u64 = u64::MAX;

/// Which run it is.
#[derive(Clone, Copy)]
struct Place {
    /// After how many calls the disk of the first run stops.
    first: u64,
    /// Which crash follows, if one does.
    crash: Option<u64>,
    /// After how many calls the disk of the next run stops.
    next: u64,
}

impl Answer {
    // Prints how a last run ended, if the one before ended otherwise.
    fn put_then(&mut self, ending: &str) {
        if !self.text.ends_with(ending) {
            self.put(", then ");
            self.put(ending);
        }
    }

    // Prints how the runs end whose disk stops after this many calls.
    fn put_next(&mut self, next: u64, endings: &str) {
        self.open();
        self.put("  ");
        self.number(next);
        self.put(": ");
        self.put(endings);
        self.put("\n");
    }
}

impl Bench {
    // The first run, of the script over an empty disk that stops after this many calls.
    fn run_first<M: Machine, R: Threads + Wait + Sync>(&mut self, machine: &M, rt: &R, calls: u64) {
        self.clear();
        self.stop(calls);
        self.go(machine, rt, false);
    }

    // A run of the later script over what is left, on a disk that stops after this many further calls.
    fn run_later<M: Machine, R: Threads + Wait + Sync>(&mut self, machine: &M, rt: &R, calls: u64) {
        self.stop(calls);
        self.go(machine, rt, true);
    }

    // The first run, a crash, if one follows, and the next run.
    fn run_next<M: Machine, R: Threads + Wait + Sync>(
        &mut self,
        machine: &M,
        rt: &R,
        place: Place,
    ) {
        self.run_first(machine, rt, place.first);
        if let Some(choice) = place.crash {
            self.crash(choice);
        }
        self.run_later(machine, rt, place.next);
    }

    // How the last run ended.
    fn ending(&mut self) -> String {
        let mut told = Answer::new(self.answer.alloc);
        told.ending(&self.left);
        self.answer.ended(told)
    }

    // How a last run ends, after the next run and a crash.
    fn last_ending<M: Machine, R: Threads + Wait + Sync>(
        &mut self,
        machine: &M,
        rt: &R,
        place: Place,
        choice: u64,
    ) -> String {
        self.run_next(machine, rt, place);
        self.crash(choice);
        self.run_later(machine, rt, NEVER);
        self.ending()
    }

    // How the next run ends, and after it the last runs over each root that a crash may leave, each answer once.
    fn endings<M: Machine, R: Threads + Wait + Sync>(
        &mut self,
        machine: &M,
        rt: &R,
        place: Place,
    ) -> String {
        let mut endings = Answer::new(self.answer.alloc);
        self.run_next(machine, rt, place);
        endings.ending(&self.left);
        for number in 0..self.answer.choices(&self.left) {
            let ending = self.last_ending(machine, rt, place, choice_of(number));
            endings.put_then(&ending);
        }
        self.answer.ended(endings)
    }

    // Tells how the runs after a root end, for each number of calls after which the disk of the next run stops, from 0 up to a last one. Equal
    // answers that follow one another are told once.
    fn tell_root<M: Machine, R: Threads + Wait + Sync>(
        &mut self,
        machine: &M,
        rt: &R,
        calls: u64,
        first: u64,
        crash: Option<u64>,
    ) {
        let mut before = String::new(self.answer.alloc);
        for next in 0..=calls {
            let endings = self.endings(machine, rt, Place { first, crash, next });
            if endings != before {
                self.answer.put_next(next, &endings);
            }
            before = endings;
        }
    }

    // Tells what each root comes to that a crash may leave of the first run.
    fn tell_crashes<M: Machine, R: Threads + Wait + Sync>(
        &mut self,
        machine: &M,
        rt: &R,
        calls: u64,
        first: u64,
    ) {
        for number in 0..self.answer.choices(&self.left) {
            let choice = choice_of(number);
            self.answer.open();
            self.answer.put(" crash ");
            self.answer.number(choice);
            self.answer.put("\n");
            self.tell_root(machine, rt, calls, first, Some(choice));
        }
    }

    // Tells how the first run ends that stops after this many calls.
    fn tell_first<M: Machine, R: Threads + Wait + Sync>(
        &mut self,
        machine: &M,
        rt: &R,
        first: u64,
    ) {
        self.run_first(machine, rt, first);
        self.answer.open();
        self.answer.number(first);
        self.answer.put(": ");
        self.answer.ending(&self.left);
        self.answer.put("\n");
    }

    /// Stops the disk of the script's run after 0 calls up to a last number, and opens what it leaves, or what each crash leaves of that, by
    /// runs whose disk stops after 0 calls up to another number.
    pub fn stops<M: Machine, R: Threads + Wait + Sync>(
        &mut self,
        machine: &M,
        rt: &R,
        rest: &str,
        crashes: bool,
    ) {
        let (firsts, rest) = first_word(rest);
        let (calls, later) = first_word(rest);
        let firsts = self.answer.number_of(firsts);
        let calls = self.answer.number_of(calls);
        self.later = self.answer.bytes_of(later);
        for first in 0..=firsts {
            self.tell_first(machine, rt, first);
            if crashes {
                self.tell_crashes(machine, rt, calls, first);
            } else {
                self.tell_root(machine, rt, calls, first, None);
            }
        }
    }
}
