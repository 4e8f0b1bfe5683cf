// An agent's memory.
ghost use Rattle.std.specs.Prelude.{◌≡◌, ◌≤◌, vec_len};
ghost use Rattle.agents.specs.Answering.{passed_for};
ghost use Rattle.agents.specs.declared.agent.Passed.TheVariants as passed;
ghost use Rattle.agents.specs.declared.agent.Unsent.TheVariants as unsent;

use crate::head::Head;
use crate::order::Seen;
use jobs::ids::{LAST, TaskId};
use std::alloc::AllocError;
use thiserror::Error;
use wire::reply::Order;
use wire::unread::Unread;

// What was ordered last, and what runs.
#[derive(Drop)]
pub struct Agent {
    pub(crate) head: Head,
    pub(crate) orders: Vec<Order>,
    pub(crate) seens: Vec<Seen>,
    ghost few: { vec_len orders ≤ 65535 },
}

impl Agent {
    pub fn head(&self) -> Head
        ensures { result ≡ self.now.head }
    {
        self.head
    }

    // What was ordered last.
    pub fn orders(&self) -> &[Order]
        ensures { result.now ≡ self.now.orders.items }
    {
        self.orders.as_slice()
    }

    // What runs.
    pub fn seens(&self) -> &[Seen]
        ensures { result.now ≡ self.now.seens.items }
    {
        self.seens.as_slice()
    }
}

// Why a report is not sent.
#[derive(Clone, Copy, Debug, PartialEq, Eq, Error)]
pub enum Unsent {
    #[error("number {LAST} was the last of this life; start the agent anew")]
    Last,
    #[error("no memory for it; ask again")]
    NoMemory,
}

impl From<AllocError> for Unsent {
    ghost from_gives = { λ _ e. e ≡ unsent.NoMemory };

    fn from(_e: AllocError) -> Unsent {
        Unsent::NoMemory
    }
}

// Why what came is passed over.
#[derive(Clone, Copy, Debug, PartialEq, Eq, Error)]
pub enum Passed {
    #[error("it is no answer to a report")]
    NoAnswer,
    // By its number, and not a `Refusal`: any byte may come.
    #[error("the herd turned a call away by {0}")]
    Refused(u8),
    // It answers another report than the last, or another machine's or life's.
    #[error("it doesn't answer the last report of this life")]
    NotLast,
    #[error("no memory to obey it; report again")]
    NoMemory,
}

impl From<AllocError> for Passed {
    ghost from_gives = { λ _ e. e ≡ passed.NoMemory };

    fn from(_e: AllocError) -> Passed {
        Passed::NoMemory
    }
}

impl From<Unread> for Passed {
    ghost from_gives = { λ u e. e ≡ passed_for u };

    fn from(why: Unread) -> Passed {
        match why {
            Unread::NoAnswer => Passed::NoAnswer,
            Unread::NoMemory => Passed::NoMemory,
        }
    }
}

// A task that was said to be ready or dead, and doesn't run here.
#[derive(Clone, Copy, Debug, PartialEq, Eq, Error)]
#[error("{0} doesn't run here")]
pub struct NotRunning(pub TaskId);
