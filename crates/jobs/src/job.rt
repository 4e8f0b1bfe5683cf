// A job: what is wanted.
use crate::ids::Version;
use crate::name::Name;
use crate::spec::Spec;

#[derive(Clone, Copy)]
pub struct Job {
    pub name: Name,
    pub version: Version,
    pub spec: Spec,
    pub count: u16,
    pub least: u16,
    pub most: u16,
}
