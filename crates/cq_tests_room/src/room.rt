//! Tests of `cq_room`: each public call with ample memory, checkpoints, sessions in threads, a look while a gate holds a submit, a submit
//! that takes a grounding away, and each allocation of a room, and of a desk over its two copies, refused in turn.

mod jobs;
mod meetings;
pub mod plays;
mod renewed;
mod seats;
mod threads;
