//! The claim of a verdict, and the laws of claims.

pub mod laws;
