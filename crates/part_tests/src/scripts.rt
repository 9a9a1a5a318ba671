// Runs of `seq` and `walk` of which a read or a write fails.
mod faults;
