//! The JSON forms of values and shapes, read and printed by themselves, and the devices that
//! documents come from and go to.
mod devices;
mod shapes;
mod values;
