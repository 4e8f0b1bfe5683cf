// A task as a value, without its job's name.
use crate::ids::{TaskId, Version};
use crate::phase::Phase;
use crate::spec::Spec;

#[derive(Clone, Copy)]
pub struct Task {
    pub id: TaskId,
    pub version: Version,
    pub spec: Spec,
    pub phase: Phase,
}
