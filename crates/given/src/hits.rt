// Lines of random octets, of which two data bits of one block are hit.
ghost use Rattle.std.specs.Prelude.{◌+◌, ◌<◌, ◌≤◌, IfSome};

use crate::{Bench, turn_over};
use program::Kind;

// A random number, from which the octets behind it follow.
#[derive(Drop)]
struct Random {
    x: u64,
    ghost below: { x < 2147483647 },
}

impl Random {
    // the number behind m
    fn behind(m: usize) -> Random
        requires { m < 2147483647 }
    {
        Random {
            x: 16807 * (m as u64) % 2147483647,
        }
    }
}

impl Iterator for Random {
    type Item = u8;

    fn next(&mut self) -> Option<u8> {
        let octet = (self.x / 8192 % 256) as u8;
        self.x = 16807 * self.x % 2147483647;
        Some(octet)
    }
}

// A block's bits, each so many-th of which is no data bit; where the block that is hit begins on its line, and how many
// octets of the line's payload are random.
#[derive(Clone, Copy)]
struct Block {
    bits: usize,
    each: usize,
    start: usize,
    random: usize,
    ghost sizes: { (2048 ≤ bits) × (bits ≤ 4632) × (0 < each) × (start ≤ 4632) × (random ≤ 8432) },
}

impl Block {
    fn of(kind: Kind) -> Block {
        match kind {
            Kind::E1 => Block {
                bits: 2048,
                each: 512,
                start: 4096,
                random: 1984,
            },
            Kind::T1 => Block {
                bits: 4632,
                each: 193,
                start: 4632,
                random: 1728,
            },
        }
    }

    fn is_data(&self, i: usize) -> bool {
        i % self.each != 0
    }

    // the first of two data bits that lie m apart, looked for from a number on and then from 0 on
    fn first_bit(&self, m: usize, number: u64) -> Option<usize>
        requires { m < self.now.bits }
        ensures { IfSome result (λ i. i < self.now.bits) }
    {
        let e = self.bits - m;
        let r = (number % (e as u64)) as usize;
        (0..e)
            .map(|t| (r + t) % e)
            .find(|i| self.is_data(*i) & self.is_data(*i + m))
    }
}

impl Bench {
    // Its payload begins with n random octets that follow from m: the number behind them.
    fn draw(&mut self, m: usize, n: usize) -> u64
        requires { (m < 2147483647) × (n ≤ 8432) }
    {
        let mut random = Random::behind(m);
        for (octet, x) in self.payload[..n].iter_mut().zip(&mut random) {
            *octet = x;
        }
        random.x
    }

    // A line of random octets that follow from m, two data bits of one block hit that lie m apart; whether there are such
    // bits. It is four multiframes with the third block hit, or three superframes of T1 with the second.
    pub fn hit_twice(&mut self, kind: Kind, m: usize) -> bool {
        let block = Block::of(kind);
        if block.bits <= m {
            return false;
        }
        let number = self.draw(m, block.random);
        let Some(i) = block.first_bit(m, number) else {
            return false;
        };
        self.image = match kind {
            Kind::E1 => self.line(4),
            Kind::T1 => self.t1_line(3),
        };
        turn_over(&mut self.image, block.start + i);
        turn_over(&mut self.image, block.start + i + m);
        true
    }
}
