// The running desk and the running grid: the greatest desk, a wide one, which grids are not made, and
// what drops with either.
mod desk_drops;
mod greatest;
mod grid_drops;
mod grid_refusals;
mod wide_desk;
