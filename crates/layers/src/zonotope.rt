// Zonotopes stand with the other plain bodies; here they can be had beside the layers.
pub use body::zonotope::{MOST, Zonotope};
