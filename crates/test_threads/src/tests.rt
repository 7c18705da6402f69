mod audits;
mod turns;
mod workers;
