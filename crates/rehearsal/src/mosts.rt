// How many tasks each job was ever to have at the most.
use std::alloc::{AllocError, Global};

#[derive(Drop)]
pub struct Most {
    pub name: String,
    pub highest: u16,
}

#[derive(Drop)]
pub struct Mosts {
    list: Vec<Most>,
}

impl Mosts {
    pub fn new(heap: Global) -> Self {
        Mosts {
            list: Vec::new(heap),
        }
    }

    // In the order in which the jobs were first set.
    pub fn list(&self) -> &[Most] {
        self.list.as_slice()
    }

    // A job of that name was set, or may have been.
    pub fn note(&mut self, heap: Global, name: &str, most: u16) -> Result<(), AllocError> {
        for known in self.list.iter_mut() {
            if known.name.as_str() == name {
                known.highest = known.highest.max(most);
                return Ok(());
            }
        }
        self.list.push(Most {
            name: String::from_str(heap, name)?,
            highest: most,
        })?;
        Ok(())
    }
}
