// What document 01 says, as definitions that compute, and the laws about them. No code stands here: read specs/.
#![tactic(auto)]
