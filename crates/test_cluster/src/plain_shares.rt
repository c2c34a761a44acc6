//! Shares as plain lists: each answer is found by walking them.

use std::alloc::Global;

/// So much of cpus and of mem.
pub type Amounts = (u64, u64);

/// A framework that has a role, and what it holds.
#[derive(Clone, Copy, Drop)]
pub struct Held {
    pub framework: u32,
    pub role: u32,
    pub amounts: Amounts,
}

/// A framework or a role as it is compared with others: what it holds, and its weight.
#[derive(Clone, Copy, Drop)]
struct Standing {
    amounts: Amounts,
    weight: u64,
}

/// Roles have numbers from 0, in byte order of their names; frameworks from 1.
#[derive(Drop)]
pub struct Plain {
    totals: Amounts,
    held: Vec<Held>,
    /// The weight of each role.
    weights: Vec<u64>,
}

fn plus(one: Amounts, other: Amounts) -> Amounts {
    (one.0.saturating_add(other.0), one.1.saturating_add(other.1))
}

fn covers(one: Amounts, other: Amounts) -> bool {
    one.0 >= other.0 && one.1 >= other.1
}

fn minus(one: Amounts, other: Amounts) -> Amounts {
    (one.0.saturating_sub(other.0), one.1.saturating_sub(other.1))
}

/// Whether an amount of a total, by a weight, is at most another of its total, by its own.
fn is_share_at_most(
    amount: u64,
    total: u64,
    weight: u64,
    other: u64,
    other_total: u64,
    other_weight: u64,
) -> bool {
    let one = amount
        .saturating_mul(other_total)
        .saturating_mul(other_weight);
    other_total > 0 && one <= other.saturating_mul(total).saturating_mul(weight)
}

/// Whether a share of one resource is at most some share of another's; so is one of nothing.
fn is_at_most_one(totals: Amounts, amount: u64, total: u64, weight: u64, other: Standing) -> bool {
    let (cpus, mem) = other.amounts;
    total == 0
        || is_share_at_most(amount, total, weight, cpus, totals.0, other.weight)
        || is_share_at_most(amount, total, weight, mem, totals.1, other.weight)
}

/// Whether the one's dominant share by its weight is at most the other's.
fn is_at_most(totals: Amounts, one: Standing, other: Standing) -> bool {
    let (cpus, mem) = one.amounts;
    is_at_most_one(totals, cpus, totals.0, one.weight, other)
        && is_at_most_one(totals, mem, totals.1, one.weight, other)
}

impl Plain {
    pub fn new(alloc: Global) -> Option<Plain> {
        let weights = vec![in alloc; 1, 1, 1, 1].ok()?;
        Some(Plain {
            totals: (0, 0),
            held: Vec::new(alloc),
            weights,
        })
    }

    pub fn enter(&mut self, total: Amounts) {
        self.totals = plus(self.totals, total);
    }

    /// Whether agents own so much; it is gone then.
    pub fn leave(&mut self, total: Amounts) -> bool {
        let owned = covers(self.totals, total);
        if owned {
            self.totals = minus(self.totals, total);
        }
        owned
    }

    pub fn weigh(&mut self, role: u32, weight: u64) {
        if let Some(kept) = self.weights.get_mut(role as usize) {
            *kept = weight;
        }
    }

    fn place(&self, framework: u32) -> Option<usize> {
        self.held
            .iter()
            .position(|held| held.framework == framework)
    }

    pub fn role(&mut self, framework: u32, role: u32) -> Option<()> {
        match self.place(framework) {
            Some(place) => self.held.get_mut(place)?.role = role,
            None => self.push(framework, role, (0, 0))?,
        }
        Some(())
    }

    fn push(&mut self, framework: u32, role: u32, amounts: Amounts) -> Option<()> {
        let held = Held {
            framework,
            role,
            amounts,
        };
        self.held.push(held).ok()
    }

    /// A framework without a role counts as of the first, `*`.
    pub fn give(&mut self, framework: u32, amounts: Amounts) -> Option<()> {
        match self.place(framework) {
            Some(place) => {
                let held = self.held.get_mut(place)?;
                held.amounts = plus(held.amounts, amounts);
            }
            None => self.push(framework, 0, amounts)?,
        }
        Some(())
    }

    /// Whether a framework holds so much; it gives it back then.
    pub fn back(&mut self, framework: u32, amounts: Amounts) -> bool {
        for held in self.held.iter_mut() {
            if held.framework == framework && covers(held.amounts, amounts) {
                held.amounts = minus(held.amounts, amounts);
                return true;
            }
        }
        false
    }

    pub fn held(&self) -> &[Held] {
        self.held.as_slice()
    }

    /// All that the frameworks of a role hold, with its weight.
    fn of_role(&self, role: u32) -> Standing {
        let mut amounts = (0, 0);
        for held in self.held.as_slice() {
            if held.role == role {
                amounts = plus(amounts, held.amounts);
            }
        }
        let weight = self.weights.get(role as usize).copied().unwrap_or(1);
        Standing { amounts, weight }
    }

    /// Whether the one is served before the other: of two roles by these, of one by themselves.
    fn comes_before(&self, one: Held, other: Held) -> bool {
        if one.role != other.role {
            let (first, second) = (self.of_role(one.role), self.of_role(other.role));
            return is_at_most(self.totals, first, second)
                && (!is_at_most(self.totals, second, first) || one.role < other.role);
        }
        let first = Standing {
            amounts: one.amounts,
            weight: 1,
        };
        let second = Standing {
            amounts: other.amounts,
            weight: 1,
        };
        is_at_most(self.totals, first, second)
            && (!is_at_most(self.totals, second, first) || one.framework < other.framework)
    }

    fn comes_first(&self, one: Held) -> bool {
        for other in self.held.as_slice() {
            if one.framework != other.framework && !self.comes_before(one, *other) {
                return false;
            }
        }
        true
    }

    /// The framework that comes before each other one.
    pub fn pick(&self) -> Option<u32> {
        for held in self.held.as_slice() {
            if self.comes_first(*held) {
                return Some(held.framework);
            }
        }
        None
    }
}
