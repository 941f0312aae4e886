//! Tokens: each test goes over all kinds that have what it looks at.

mod asked;
mod assembly;
mod calls;
mod collision_time;
mod collisions;
mod damage;
mod faults;
mod forgeries;
mod forms;
mod hostile;
mod lengths;
mod nonces;
mod own_errors;
mod parts;
mod public_keys;
mod readings;
mod refusals;
mod sealing_use;
mod shared_tags;
mod signing_use;
