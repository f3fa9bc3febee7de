ghost use Rattle.std.specs.Prelude.{◌≡◌, ◌<◌, ◌↔◌, IsTrue, MatchOption};

use crate::table::{Table, Verdict};

// The number of the last law.
const LAST_LAW: u8 = 5;

impl Table {
    ghost use Rattle.std.specs.Prelude.{◌≡◌, ◌<◌, ◌≤◌, ◌↔◌, IsTrue, MatchOption};
    ghost use Rattle.action_tables.specs.Table.{op_count, third_count, ActsUpward, Commute, Exchange, ActAlike, Distribute, Holds, IsCase, case_of, KeepsLaws};
    ghost use Rattle.action_tables.specs.Verdict.{IsVerdict, HoldsEach, IsFirst};

    /// The verdict on the table: its first broken case, at which the search ends, or that it keeps the five laws. It takes no
    /// memory.
    pub fn check(&self) -> Verdict
        ensures verdict { IsVerdict self.now result }
        ensures lawful { (result ≡ Verdict.Lawful) ↔ KeepsLaws self.now }
    {
        for law in 1..=LAST_LAW {
            if let Some((a, b, c)) = self.first_broken(law) {
                return Verdict::Broken { law, a, b, c };
            }
        }
        Verdict::Lawful
    }

    // The places of the first case where this law does not hold.
    fn first_broken(&self, law: u8) -> Option<(u8, u8, u8)>
        requires first { 1 ≤ law }
        requires last { law ≤ 5 }
        ensures { MatchOption result (HoldsEach self.now law) (λ k. IsFirst self.now law k.0 k.1 k.2) }
    {
        let ops = self.op_count();
        let thirds = self.third_count(law);
        for a in 0..ops {
            for b in 0..ops {
                for c in 0..thirds {
                    if !self.holds(law, a, b, c) {
                        return Some((a, b, c));
                    }
                }
            }
        }
        None
    }

    // How many values the third place of the law's cases takes.
    fn third_count(&self, law: u8) -> u8
        ensures { result ≡ third_count self.now law }
    {
        match law {
            1 => 1,
            0 | 2 | 3 => self.states,
            _ => self.op_count(),
        }
    }

    // Whether the law of the case holds there.
    fn holds(&self, law: u8, a: u8, b: u8, c: u8) -> bool
        requires { IsCase self.now (case_of law a b c) }
        ensures { IsTrue result ↔ Holds self.now (case_of law a b c) }
    {
        match law {
            1 => self.acts_upward(a, b),
            2 => self.commute(a, b, c),
            3 => self.exchange(a, b, c),
            4 => self.act_alike(a, b, c),
            _ => self.distribute(a, b, c),
        }
    }

    // An operation that is acted on keeps its level, and changes only where the level of the acting one is greater.
    fn acts_upward(&self, y: u8, x: u8) -> bool
        requires acting { y < op_count self.now }
        requires acted { x < op_count self.now }
        ensures { IsTrue result ↔ ActsUpward self.now y x }
    {
        let acted = self.act_of(y, x);
        let level = self.level_of(x);
        self.level_of(acted) == level && (self.level_of(y) > level || acted == x)
    }

    // Two operations of one level lead to one state in either order.
    fn commute(&self, x: u8, y: u8, state: u8) -> bool
        requires first { x < op_count self.now }
        requires second { y < op_count self.now }
        requires state { state < self.now.states }
        ensures { IsTrue result ↔ Commute self.now x y state }
    {
        self.level_of(x) != self.level_of(y)
            || self.next_of(self.next_of(state, x), y) == self.next_of(self.next_of(state, y), x)
    }

    // The lower of two operations may come second, as what the higher one turns it into.
    fn exchange(&self, y: u8, x: u8, state: u8) -> bool
        requires acting { y < op_count self.now }
        requires acted { x < op_count self.now }
        requires state { state < self.now.states }
        ensures { IsTrue result ↔ Exchange self.now y x state }
    {
        self.level_of(x) >= self.level_of(y)
            || self.next_of(self.next_of(state, x), y)
                == self.next_of(self.next_of(state, y), self.act_of(y, x))
    }

    // Two operations of one level may act on a lower one in either order.
    fn act_alike(&self, y: u8, v: u8, x: u8) -> bool
        requires first { y < op_count self.now }
        requires second { v < op_count self.now }
        requires acted { x < op_count self.now }
        ensures { IsTrue result ↔ ActAlike self.now y v x }
    {
        self.level_of(y) != self.level_of(v)
            || self.level_of(x) >= self.level_of(y)
            || self.act_of(y, self.act_of(v, x)) == self.act_of(v, self.act_of(y, x))
    }

    // Of three levels the highest may act first, on each of the two others, or last, on what has become of the lowest.
    fn distribute(&self, z: u8, y: u8, x: u8) -> bool
        requires highest { z < op_count self.now }
        requires middle { y < op_count self.now }
        requires lowest { x < op_count self.now }
        ensures { IsTrue result ↔ Distribute self.now z y x }
    {
        self.level_of(x) >= self.level_of(y)
            || self.level_of(y) >= self.level_of(z)
            || self.act_of(z, self.act_of(y, x))
                == self.act_of(self.act_of(z, y), self.act_of(z, x))
    }
}
