// No code: what the two calls over pair records promise, and that 1 is told exactly where a size is broken.
// The seven slices are no struct there: the C interface lends each by itself.
#![tactic(auto)]
