//! What a policy declares, as data.

use serde::Serialize;

/// A client: its number, from 1, and its name.
#[derive(Clone, Copy, Debug, Serialize)]
pub struct Client<'a> {
    pub number: u32,
    pub name: &'a str,
}

/// An agent: its number, from 1, its name, and which dispatches it takes.
#[derive(Clone, Copy, Debug, Serialize)]
pub struct Agent<'a> {
    pub number: u32,
    pub name: &'a str,
    pub takes_kernel: bool,
    pub takes_agent: bool,
}

/// A region: its number, from 1, its name, its first address, and its length in bytes.
#[derive(Clone, Copy, Debug, Serialize)]
pub struct Region<'a> {
    pub number: u32,
    pub name: &'a str,
    pub address: u64,
    pub length: u32,
}

/// A signal: its number, from 1, its name, and the value with which it begins.
#[derive(Clone, Copy, Debug, Serialize)]
pub struct Signal<'a> {
    pub number: u32,
    pub name: &'a str,
    pub initial: i64,
}

/// A kernel: its number, from 1, its name, and the name of its entry in its text.
#[derive(Clone, Copy, Debug, Serialize)]
pub struct Kernel<'a> {
    pub number: u32,
    pub name: &'a str,
    pub entry: &'a str,
}

/// The rights that the policy's rows allow a client on an object: one or more.
#[derive(Debug, Drop, Serialize)]
pub struct Allowed<'a> {
    pub client: &'a str,
    pub kind: &'static str,
    pub number: u32,
    pub name: &'a str,
    pub rights: Vec<&'static str>,
}

/// What a policy declares, each in the order of the policy, and what it allows: by client, then by kind, then by number.
#[derive(Debug, Drop, Serialize)]
pub struct Declared<'a> {
    pub clients: Vec<Client<'a>>,
    pub agents: Vec<Agent<'a>>,
    pub regions: Vec<Region<'a>>,
    pub signals: Vec<Signal<'a>>,
    pub kernels: Vec<Kernel<'a>>,
    pub allowed: Vec<Allowed<'a>>,
}
