// What lines say, and the lines that are printed.
mod commands;
mod printed;
