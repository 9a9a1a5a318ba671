// Runs of `seq` and `walk` that are as large as can be, and the store that one leaves.
mod kinds;
mod sizes;
