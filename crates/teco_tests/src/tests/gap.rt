//! Of teco_gap: the gap buffer.
mod gap_buffer;
