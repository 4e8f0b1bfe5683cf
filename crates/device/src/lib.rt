// The memory that a battery keeps, and changes of it that are done as a whole or not at all, wherever the power fails.
//
// `kept` has the words as a trait; `lent` and `filed` are its ends: words in memory, and the file `kept`, which `open` opens or makes; in `fused`
// the power fails after so many stores. `halves` changes the home words in two halves that
// take turns, on any of them. Each function says which doing it carries out, to its end or cut in it.
// A service by pure functions that keeps its home words so is right in every run: `counter` is the smallest.
#![tactic(auto)]

mod bytes;
pub mod content;
pub mod counter;
pub mod disk;
pub mod done;
pub mod filed;
pub mod fused;
pub mod halves;
pub mod kept;
pub mod lent;
pub mod open;
pub mod replace;

#[cfg(test)]
mod tests {
    use crate::counter::{Ask, Counter};
    use crate::fused::Fused;
    use crate::lent::Lent;

    // Adds 5 and then 7, with the power failing after so many stores, and shows the sum that wakes.
    fn cut(stores: u64) -> u64 {
        let mut words = [0u64; 262144];
        let mut device = Fused::new(Lent::new(&mut words), stores);
        let mut counter = Counter::wake(&device);
        if counter.answer(&mut device, Ask::Add(5)).is_ok() {
            let _ = counter.answer(&mut device, Ask::Add(7));
        }
        let mut again = Lent::new(&mut words);
        let mut woken = Counter::wake(&again);
        woken.answer(&mut again, Ask::Show).unwrap_or(99)
    }

    #[test]
    fn before_or_after(rt: HostRuntime) {
        for stores in 0..8 {
            let sum = if stores < 3 {
                0
            } else if stores < 6 {
                5
            } else {
                12
            };
            assert_eq!(rt; cut(stores), sum);
        }
    }

    // Two words that change take three stores, one takes one, and showing none.
    #[test]
    fn stores(rt: HostRuntime) {
        let mut words = [0u64; 262144];
        let mut device = Fused::new(Lent::new(&mut words), 100);
        let mut counter = Counter::wake(&device);
        let _ = counter.answer(&mut device, Ask::Add(5));
        assert_eq!(rt; device.left(), 97);
        let _ = counter.answer(&mut device, Ask::Add(0));
        assert_eq!(rt; device.left(), 96);
        let _ = counter.answer(&mut device, Ask::Show);
        assert_eq!(rt; device.left(), 96);
        let _ = counter.answer(&mut device, Ask::Add(7));
        assert_eq!(rt; device.left(), 93);
    }
}
