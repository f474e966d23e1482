//! Accesses that may be out of bounds, and functions whose accesses are clamped.
mod accesses;
mod functions;
mod restricted;
