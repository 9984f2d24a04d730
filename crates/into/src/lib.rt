// A gate from input buffers into separate output buffers, as a definition; that the engines agree on it; and the laws of its tests. No code: the slow engine's
// calls stand on these.
#![tactic(auto)]
