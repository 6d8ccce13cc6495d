//! The broker's core for C: a handle over a core, and a call for each call of the core. Each answers a status, and
//! leaves a broker that isn't open, and what it refuses, as they are. `include/hobbydresser.h` tells what C sees.

// The check tries its tactics on what is left of each proof.
#![tactic(auto)]

mod agents;
mod auditing;
mod broker;
mod buffers;
mod digests;
mod effects;
mod effects_left;
mod errors;
mod granting;
mod host;
mod journals;
mod kernels;
mod lacking;
mod last_call;
mod layouts;
mod listing;
mod names;
mod opening;
mod packets;
mod parts;
mod queues;
mod reloading;
mod session;
mod session_pointer;
mod status;
mod status_texts;
mod told;
