// Groups and their aggregates that are kept up while rows come and go: small cases whose answers come from outside, random changes
// beside values made anew, and load.
mod cases;
mod column;
mod load;
mod random;
mod values;
