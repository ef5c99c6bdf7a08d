//! Of teco_io: terminals and sinks.
mod terminals;
