// What a machine keeps that asks the joints of an expression one by one.
ghost use Rattle.std.specs.Prelude.{◌≡◌, ◌<◌, [], ◌∷◌, length};
ghost use Rattle.mt_values.specs.declared.expr.TheConstants.{MOST_TRUTHS};

use crate::MOST_TRUTHS;
use std::marker::Model;

/// Answers for the parts of an expression that were asked. Takes no memory. Contracts see the list of them, the last one first.
#[derive(Drop)]
pub struct Stack<A: Copy> {
    kept: [A; MOST_TRUTHS],
    count: usize,
}

impl<A: Copy> Model for Stack<A> {
    ghost use Rattle.std.specs.Prelude.{List, reverse, take, ◌≤◌};
    ghost use Rattle.mt_values.specs.declared.expr.TheConstants.{MOST_TRUTHS};

    ghost Value = { List A };

    ghost view = { λ s. reverse (take s.count s.kept) };

    ghost invariant = { λ s. s.count ≤ MOST_TRUTHS };
}

impl<A: Copy> Stack<A> {
    /// The empty stack; its room is filled with an answer.
    pub fn new(filler: A) -> Self
        ensures { result ≡ [] }
    {
        Stack {
            kept: [filler; MOST_TRUTHS],
            count: 0,
        }
    }

    /// Puts an answer on top.
    pub fn push(&mut self, answer: A)
        requires { length self.old < MOST_TRUTHS }
        ensures { self.new ≡ answer ∷ self.old }
    {
        self.kept[self.count] = answer;
        self.count += 1;
    }

    /// Takes the answer from the top.
    pub fn pop(&mut self) -> A
        requires { 0 < length self.old }
        ensures last { self.old ≡ result ∷ self.new }
        ensures room { length self.new < MOST_TRUTHS }
    {
        self.count -= 1;
        self.kept[self.count]
    }
}
