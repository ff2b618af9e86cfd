#![tactic(auto)]

// Replicas, runs and the room: definitions in specs/ only.
